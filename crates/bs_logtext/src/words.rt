// That the numbers with a sign in a log have 64 bits.
ghost use Rattle.std.specs.Prelude.{◌≡◌, true};
ghost use Rattle.std.specs.List.{list_all};
ghost use Rattle.bs_log.specs.ValidTest.{is_word};
ghost use Rattle.bs_logtext.specs.Declared.{HasWords};
ghost use Rattle.bs_logtext.specs.Words.{sends_word, awaits_word, holds_words};

use bs_log::{Log, Row, Sent, WaitRow};

/// Each reference that a log sends or waits for, and each value that it emits, has 64 bits.
///
/// Every `i64` has, so nothing is tested and nothing can fail: the call goes through the log once, and
/// its callers know of all numbers in it what their type says. It takes no memory.
pub fn has_words(log: &Log)
    ensures { HasWords log.now }
{
    rows_hold_words(log.rows.as_slice());
    waits_are_words(log.waits.as_slice());
}

fn rows_hold_words(rows: &[Row])
    ensures { list_all holds_words rows.now ≡ true }
{
    for row in rows {
        holds_words(row);
    }
}

#[tactic(auto, unfolding(crate::specs::Words::holds_words))]
fn holds_words(row: &Row)
    ensures { holds_words row.now ≡ true }
{
    are_words(row.emits.as_slice());
    sends_are_words(row.sends.as_slice());
}

fn are_words(values: &[i64])
    ensures { list_all is_word values.now ≡ true }
{
    for value in values {
        is_word(*value);
    }
}

fn sends_are_words(sends: &[Sent])
    ensures { list_all sends_word sends.now ≡ true }
{
    for sent in sends {
        is_word(sent.key.reference);
    }
}

fn waits_are_words(waits: &[WaitRow])
    ensures { list_all awaits_word waits.now ≡ true }
{
    for wait in waits {
        is_word(wait.key.reference);
    }
}

// Every number of this type has 64 bits.
fn is_word(_value: i64)
    ensures { is_word _value ≡ true }
{}
