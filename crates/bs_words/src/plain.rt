// Whether a list of words is plain.
ghost use Rattle.std.specs.Prelude.{◌≡◌, is_some, map, string_bytes};
ghost use Rattle.bs_words.specs.Plain.{plain, is_dashed, flag_of};
ghost use Rattle.bs_words.specs.Seen.{seen_step, with_seen, has, has_flag, seen_dashed, seen_flag, seen_option, seen_name};

use crate::flag::{Flag, flag_named};
use crate::setting::{Setting, setting_named};

// What was seen of a list so far.
#[derive(Clone, Copy, Debug, Drop)]
pub(crate) struct Seen {
    pub(crate) command: bool,
    pub(crate) names: bool,
    pub(crate) limit: bool,
    pub(crate) workers: bool,
    pub(crate) waves: bool,
    pub(crate) journal: bool,
    pub(crate) spans: bool,
    // The option whose value comes next.
    pub(crate) waits: Option<Setting>,
    // An option came after a name.
    pub(crate) closed: bool,
}

/// Whether the list is plain. It takes no memory.
pub(crate) fn is_plain(words: &[String]) -> bool
    ensures { result ≡ is_some (plain (map string_bytes words.now)) }
{
    let mut seen = Seen {
        command: false,
        names: false,
        limit: false,
        workers: false,
        waves: false,
        journal: false,
        spans: false,
        waits: None,
        closed: false,
    };
    for word in words {
        seen = match step(seen, word.as_str()) {
            Some(next) => next,
            None => return false,
        };
    }
    seen.waits.is_none() && seen.command
}

// What is seen after one more word, where the list can still be plain.
fn step(seen: Seen, word: &str) -> Option<Seen>
    ensures { result ≡ seen_step word.now seen }
{
    if word.is_empty() {
        return None;
    }
    match seen.waits {
        Some(setting) => {
            if begins_with_hyphen(word) {
                None
            } else {
                Some(with_value(setting, seen))
            }
        }
        None => {
            if begins_with_hyphen(word) {
                with_dashed(word, seen)
            } else {
                with_name(seen)
            }
        }
    }
}

fn begins_with_hyphen(word: &str) -> bool
    ensures { result ≡ is_dashed word.now }
{
    match word.as_bytes() {
        [first, ..] => *first == b'-',
        [] => false,
    }
}

fn with_value(setting: Setting, seen: Seen) -> Seen
    ensures { result ≡ with_seen setting seen }
{
    match setting {
        Setting::Limit => Seen {
            limit: true,
            waits: None,
            ..seen
        },
        Setting::Workers => Seen {
            workers: true,
            waits: None,
            ..seen
        },
        Setting::Waves => Seen {
            waves: true,
            waits: None,
            ..seen
        },
        Setting::Journal => Seen {
            journal: true,
            waits: None,
            ..seen
        },
    }
}

fn stands(setting: Setting, seen: Seen) -> bool
    ensures { result ≡ has setting seen }
{
    match setting {
        Setting::Limit => seen.limit,
        Setting::Workers => seen.workers,
        Setting::Waves => seen.waves,
        Setting::Journal => seen.journal,
    }
}

fn with_dashed(word: &str, seen: Seen) -> Option<Seen>
    ensures { result ≡ seen_dashed (flag_of word.now) word.now seen }
{
    match flag_named(word) {
        Some(flag) => with_flag(flag, seen),
        None => with_option(setting_named(word), seen),
    }
}

fn flag_stands(flag: Flag, seen: Seen) -> bool
    ensures { result ≡ has_flag flag seen }
{
    match flag {
        Flag::Spans => seen.spans,
    }
}

fn with_flag(flag: Flag, seen: Seen) -> Option<Seen>
    ensures { result ≡ seen_flag flag seen }
{
    if flag_stands(flag, seen) {
        return None;
    }
    let closed = seen.closed || seen.names;
    Some(match flag {
        Flag::Spans => Seen {
            spans: true,
            closed,
            ..seen
        },
    })
}

fn with_option(setting: Option<Setting>, seen: Seen) -> Option<Seen>
    ensures { result ≡ seen_option setting seen }
{
    let setting = setting?;
    if stands(setting, seen) {
        return None;
    }
    Some(Seen {
        waits: Some(setting),
        closed: seen.closed || seen.names,
        ..seen
    })
}

fn with_name(seen: Seen) -> Option<Seen>
    ensures { result ≡ seen_name seen }
{
    if !seen.command {
        return Some(Seen {
            command: true,
            ..seen
        });
    }
    if seen.closed {
        return None;
    }
    Some(Seen {
        names: true,
        ..seen
    })
}
