// The texts of a plain list.
ghost use Rattle.std.specs.Prelude.{◌≡◌, IfOk, IsTrue, Some, [], is_some, map, string_bytes, option_map, unwrap_or, codes};
ghost use Rattle.clap.specs.Words.{all_of, rows_of, found_of};
ghost use Rattle.bs_words.specs.Plain.{plain};
ghost use Rattle.bs_words.specs.Texts.{plain_texts, texts_of};

use crate::app::{matches_of_plain, words_parser};
use crate::plain::is_plain;
use clap::ArgMatches;
use std::alloc::{AllocError, Global};

// The command, its names and its options, as they stand in the list: the value of each, or whether one without
// a value stands.
#[derive(Drop)]
pub(crate) struct Reading<'a> {
    pub(crate) command: &'a str,
    pub(crate) names: Vec<&'a str>,
    pub(crate) limit: Option<&'a str>,
    pub(crate) workers: Option<&'a str>,
    pub(crate) waves: Option<&'a str>,
    pub(crate) journal: Option<&'a str>,
    pub(crate) spans: bool,
}

/// Reads a plain list, and gives nothing for any other.
pub(crate) fn read_plain<'a>(
    alloc: Global,
    words: &'a [String],
) -> Result<Option<Reading<'a>>, AllocError>
    ensures { IfOk result (λ reading. option_map texts_of reading ≡ plain_texts (map string_bytes words.now)) }
{
    if !is_plain(words) {
        return Ok(None);
    }
    Ok(Some(parse(alloc, words)?))
}

fn parse<'a>(alloc: Global, words: &'a [String]) -> Result<Reading<'a>, AllocError>
    requires { IsTrue (is_some (plain (map string_bytes words.now))) }
    ensures { IfOk result (λ reading. plain_texts (map string_bytes words.now) ≡ Some (texts_of reading)) }
{
    let matches = match matches_of_plain(words_parser(alloc)?, words) {
        Ok(matches) => matches,
        Err(_) => return Err(AllocError),
    };
    let command = match matches.get_str("command") {
        Some(word) => word,
        None => return Err(AllocError),
    };
    Ok(Reading {
        command,
        names: names_in(alloc, &matches)?,
        limit: matches.get_str("limit"),
        workers: matches.get_str("workers"),
        waves: matches.get_str("waves"),
        journal: matches.get_str("journal"),
        spans: matches.get_flag("spans"),
    })
}

fn names_in<'a>(alloc: Global, matches: &ArgMatches<'a>) -> Result<Vec<&'a str>, AllocError>
    ensures { IfOk result (λ names. map (λ n. n.now) names.items ≡ unwrap_or (all_of (codes "names") (rows_of (found_of matches.now))) []) }
{
    match matches.get_strs("names") {
        Some(names) => names.to_vec(alloc),
        None => Ok(Vec::new(alloc)),
    }
}
