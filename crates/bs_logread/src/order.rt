// Where a line may stand.
ghost use Rattle.std.specs.Prelude.{◌≡◌, true};
ghost use Rattle.bs_log.specs.ValidTest.{is_from};
ghost use Rattle.bs_logread.specs.Order.{start, after, may_follow, rows_allow, has_place, has_room, are_within, is_within, with_line};

use crate::lines::{Counts, Line};

/// What the lines so far come to.
#[derive(Clone, Copy, Drop)]
pub(crate) struct Progress {
    /// The kind of the last line. Kinds are numbered in the order in which they stand: 1 the version,
    /// 2 the counts, 3 `row`, 4 `after`, 5 `mail`, 6 `emit`, 7 `send`, 8 `trap`, 9 `wait`, 10 `end`.
    /// It is 0 where there was no line.
    pub(crate) last: u32,
    /// The number of rows that the second line names.
    pub(crate) named: u32,
    /// How many rows there were.
    pub(crate) rows: u32,
    /// How many lines there were beside the first two and the last.
    pub(crate) counted: u32,
}

/// The number of the kind of the last line of a text.
pub(crate) const END: u32 = 10;

pub(crate) fn start() -> Progress
    ensures { result ≡ start }
{
    Progress {
        last: 0,
        named: 0,
        rows: 0,
        counted: 0,
    }
}

/// Whether a line may stand behind those so far.
#[tactic(auto, unfolding(crate::specs::Order::has_place))]
pub(crate) fn has_place(progress: Progress, line: Line) -> bool
    ensures { result ≡ has_place progress line }
{
    may_follow(progress.last, line) && rows_allow(progress, line)
}

fn is_from(least: u32, most: u32, number: u32) -> bool
    ensures { result ≡ is_from least most number }
{
    least <= number && number <= most
}

fn may_follow(last: u32, line: Line) -> bool
    ensures { result ≡ may_follow last line }
{
    match line {
        Line::Version => last == 0,
        Line::Counts(_) => last == 1,
        Line::Row(_) => is_from(2, 7, last),
        Line::After(_) => is_from(3, 4, last),
        Line::Mail(_) => is_from(3, 5, last),
        Line::Emit(_) => is_from(3, 6, last),
        Line::Send(_) => is_from(3, 7, last),
        Line::Trap(_) => is_from(2, 8, last),
        Line::Wait(_) | Line::End => is_from(2, 9, last),
    }
}

fn rows_allow(progress: Progress, line: Line) -> bool
    ensures { result ≡ rows_allow progress line }
{
    match line {
        Line::Row(_) => progress.rows < progress.named,
        Line::Trap(_) | Line::Wait(_) | Line::End => progress.rows == progress.named,
        Line::Version
        | Line::Counts(_)
        | Line::After(_)
        | Line::Mail(_)
        | Line::Emit(_)
        | Line::Send(_) => true,
    }
}

/// Whether no limit is passed with a line.
#[tactic(auto, unfolding(crate::specs::Order::is_within))]
pub(crate) fn is_within(progress: Progress, line: Line) -> bool
    ensures { result ≡ is_within progress line }
{
    match line {
        Line::Version | Line::End => true,
        Line::Counts(counts) => are_within(counts),
        Line::Row(_)
        | Line::After(_)
        | Line::Mail(_)
        | Line::Emit(_)
        | Line::Send(_)
        | Line::Trap(_)
        | Line::Wait(_) => has_room(progress),
    }
}

fn are_within(counts: Counts) -> bool
    ensures { result ≡ are_within counts }
{
    is_from(1, 65_536, counts.chares) && counts.entries <= 1_000 && counts.rows <= 262_144
}

fn has_room(progress: Progress) -> bool
    ensures { result ≡ has_room progress }
{
    progress.counted < 262_144
}

/// What the lines come to with one more.
#[tactic(auto, unfolding(crate::specs::Order::has_place, crate::specs::Order::is_within))]
pub(crate) fn after(progress: Progress, line: Line) -> Progress
    requires place { has_place progress line ≡ true }
    requires within { is_within progress line ≡ true }
    ensures { result ≡ after progress line }
{
    match line {
        Line::Version => Progress {
            last: 1,
            ..progress
        },
        Line::Counts(counts) => Progress {
            last: 2,
            named: counts.rows,
            ..progress
        },
        Line::Row(_) => Progress {
            last: 3,
            rows: progress.rows + 1,
            counted: progress.counted + 1,
            ..progress
        },
        Line::After(_) => with_line(4, progress),
        Line::Mail(_) => with_line(5, progress),
        Line::Emit(_) => with_line(6, progress),
        Line::Send(_) => with_line(7, progress),
        Line::Trap(_) => with_line(8, progress),
        Line::Wait(_) => with_line(9, progress),
        Line::End => Progress {
            last: END,
            ..progress
        },
    }
}

fn with_line(kind: u32, progress: Progress) -> Progress
    requires { has_room progress ≡ true }
    ensures { result ≡ with_line kind progress }
{
    Progress {
        last: kind,
        counted: progress.counted + 1,
        ..progress
    }
}
