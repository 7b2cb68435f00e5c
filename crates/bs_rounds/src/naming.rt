// The key that is sent or asked twice.
ghost use Rattle.std.specs.Prelude.{◌≡◌, ◌≤◌, Some, length, option_map, IfOk, OnOk};
ghost use Rattle.std.specs.BTreeMap.{get};
ghost use Rattle.bs_semantics.specs.Verdict.{least, lesser, twice_cmp, first_twice, marks_of_sends, marks_of_blocks, marks_of_asked, sent_marks, asked_marks, ambiguous as ambiguous_of};
ghost use Rattle.bs_rounds.specs.Answer.{at_of, twice_of};
ghost use Rattle.bs_rounds.specs.Naming.{place_cmp, mark_of, sent_mark, asked_mark, pair, none_seen, with_mark, with_marks, seen_of};

use crate::answer::{At, Twice};
use bs_log::{Asked, Block, History, Key, Message};
use std::alloc::{AllocError, Global};
use std::cmp::Ordering;
use std::collections::BTreeMap;

/// The chare that a key is sent to, or that asks for it. Places are ordered by chare, and then by key.
#[derive(Clone, Copy, PartialEq, Eq, PartialOrd, Ord, Drop)]
struct Place {
    chare: u32,
    key: Key,
}

/// A statement that sends to a place or asks there.
#[derive(Clone, Copy, Drop)]
struct Mark {
    asked: bool,
    place: Place,
    at: At,
}

/// What is kept of marks that are gone through in their order: the first at each place, and the least
/// key that came twice. Of two candidates of one key the earlier is kept.
#[derive(Drop)]
struct Marks {
    firsts: BTreeMap<Place, Mark>,
    least: Option<Twice>,
}

/// The key that is sent or asked twice in the histories of the chares from 0 on, with the first two
/// statements that do so. Of several it is the least by (chare, entry, reference), and one that is sent
/// comes before the same that is asked. Its only refusal is want of memory.
pub(crate) fn ambiguous(alloc: Global, histories: &[History]) -> Result<Option<Twice>, AllocError>
    requires few { length histories.now ≤ 65536 }
    ensures { IfOk result (λ twice. option_map twice_of twice ≡ ambiguous_of histories.now) }
{
    let sent = sent_twice(alloc, histories)?;
    let asked = asked_twice(alloc, histories)?;
    Ok(least(sent, asked))
}

// The least key that is sent twice.
fn sent_twice(alloc: Global, histories: &[History]) -> Result<Option<Twice>, AllocError>
    requires { length histories.now ≤ 65536 }
    ensures { IfOk result (λ twice. option_map twice_of twice ≡ first_twice (sent_marks 0 histories.now)) }
{
    let mut marks = Marks::new(alloc);
    for (chare, history) in histories.iter().enumerate() {
        marks.note_blocks(chare as u32, history.blocks.as_slice())?;
    }
    Ok(marks.least)
}

// The least key that is asked twice.
fn asked_twice(alloc: Global, histories: &[History]) -> Result<Option<Twice>, AllocError>
    requires { length histories.now ≤ 65536 }
    ensures { IfOk result (λ twice. option_map twice_of twice ≡ first_twice (asked_marks 0 histories.now)) }
{
    let mut marks = Marks::new(alloc);
    for (chare, history) in histories.iter().enumerate() {
        marks.note_asked(chare as u32, history.asked.as_slice())?;
    }
    Ok(marks.least)
}

impl Marks {
    fn new(alloc: Global) -> Marks
        ensures { seen_of result ≡ none_seen }
    {
        Marks {
            firsts: BTreeMap::new(alloc),
            least: None,
        }
    }

    // All that the blocks of a chare send, in their order.
    fn note_blocks(&mut self, chare: u32, blocks: &[Block]) -> Result<(), AllocError>
        ensures { OnOk result (seen_of self.new ≡ with_marks (seen_of self.old) (marks_of_blocks chare blocks.now)) }
    {
        for block in blocks {
            let at = At {
                chare,
                stmt: block.stmt,
            };
            self.note_sends(at, block.sends.as_slice())?;
        }
        Ok(())
    }

    // What a block sends.
    fn note_sends(&mut self, at: At, sends: &[Message]) -> Result<(), AllocError>
        ensures { OnOk result (seen_of self.new ≡ with_marks (seen_of self.old) (marks_of_sends (at_of at) sends.now)) }
    {
        for message in sends {
            self.note(sent_mark(at, message))?;
        }
        Ok(())
    }

    // What a chare asks.
    fn note_asked(&mut self, chare: u32, keys: &[Asked]) -> Result<(), AllocError>
        ensures { OnOk result (seen_of self.new ≡ with_marks (seen_of self.old) (marks_of_asked chare keys.now)) }
    {
        for asked in keys {
            self.note(asked_mark(chare, asked))?;
        }
        Ok(())
    }

    // The next mark. Only the first at a place is put into the map, so a later one meets the first.
    fn note(&mut self, mark: Mark) -> Result<(), AllocError>
        ensures { OnOk result (seen_of self.new ≡ with_mark (seen_of self.old) (mark_of mark)) }
    {
        match self.first(mark.place) {
            Some(first) => {
                self.least = least(self.least, Some(pair(first, mark)));
            }
            None => {
                self.firsts.insert(mark.place, mark)?;
            }
        }
        Ok(())
    }

    // The first mark at a place.
    fn first(&self, place: Place) -> Option<Mark>
        ensures { result ≡ get place_cmp self.now.firsts place }
    {
        self.firsts.get(&place).copied()
    }
}

fn sent_mark(at: At, message: &Message) -> Mark
    ensures { mark_of result ≡ sent_mark (at_of at) message.now }
{
    Mark {
        asked: false,
        place: Place {
            chare: message.sent.to,
            key: message.sent.key,
        },
        at,
    }
}

fn asked_mark(chare: u32, asked: &Asked) -> Mark
    ensures { mark_of result ≡ asked_mark chare asked.now }
{
    Mark {
        asked: true,
        place: Place {
            chare,
            key: asked.key,
        },
        at: At {
            chare,
            stmt: asked.stmt,
        },
    }
}

// The key of the first mark, with the statements of both.
fn pair(first: Mark, second: Mark) -> Twice
    ensures { twice_of result ≡ pair (mark_of first) (mark_of second) }
{
    Twice {
        asked: first.asked,
        chare: first.place.chare,
        key: first.place.key,
        first: first.at,
        second: second.at,
    }
}

// The lesser of two, and the first on a tie.
fn least(first: Option<Twice>, second: Option<Twice>) -> Option<Twice>
    ensures { option_map twice_of result ≡ least (option_map twice_of first) (option_map twice_of second) }
{
    match (first, second) {
        (None, second) => second,
        (first, None) => first,
        (Some(first), Some(second)) => Some(lesser(first, second)),
    }
}

fn lesser(first: Twice, second: Twice) -> Twice
    ensures { twice_of result ≡ lesser (twice_of first) (twice_of second) (twice_cmp (twice_of first) (twice_of second)) }
{
    match place_of(first).cmp(&place_of(second)) {
        Ordering::Greater => second,
        _ => first,
    }
}

fn place_of(twice: Twice) -> Place
    ensures chare { result.chare ≡ twice.chare }
    ensures key { result.key ≡ twice.key }
{
    Place {
        chare: twice.chare,
        key: twice.key,
    }
}
