// Which parts of an `overlap` touch a variable.
ghost use Rattle.std.specs.Prelude.{◌≡◌, ◌+◌, ◌<◌, ◌||◌, is_some, IfOk, None, false, if◌then◌else◌, slice_get};
ghost use Rattle.bs_check.specs.Interference.{or_else_rule};
ghost use Rattle.bs_check.specs.Touches.{IsBehind, IsFlagged, Keeps, Noted, pair_of, seen, seen_in, size, touched};
ghost use Rattle.bs_tree.specs.Reads.{is_same};
ghost use Rattle.bs_tree.specs.declared.tree.NameId.{NameId as TheName};

use crate::fault::Rule;
use bs_tree::NameId;
use std::alloc::{AllocError, Global};

// A row of the table: the `overlap` that it is of, the first part that touches the variable, whether
// that part writes it, and the first later part that clashes with it.
#[derive(Clone, Copy, Debug, Drop)]
pub(crate) struct Touch {
    overlap: u32,
    part: u32,
    writes: bool,
    other: Option<u32>,
}

// A row for each name, the `overlap` and the part that are looked at, and whether two of its parts clash
// for some name. Rows of other `overlap`s count as empty, so a new one begins without clearing them.
#[derive(Debug, Drop)]
pub(crate) struct Touches {
    touches: Vec<Touch>,
    overlap: u32,
    part: u32,
    clashes: bool,
}

impl Touches {
    pub(crate) fn new(alloc: Global, names: usize) -> Result<Touches, AllocError>
        ensures size { IfOk result (λ ts. size ts ≡ names) }
        ensures behind { IfOk result (λ ts. IsBehind ts 1) }
    {
        let nothing = Touch {
            overlap: 0,
            part: 0,
            writes: false,
            other: None,
        };
        Ok(Touches {
            touches: vec![in alloc; nothing; names]?,
            overlap: 0,
            part: 0,
            clashes: false,
        })
    }

    // Begins with an `overlap`, whose number is above those before.
    pub(crate) fn start(&mut self, overlap: u32)
        requires { IsBehind self.old overlap }
        ensures size { size self.new ≡ size self.old }
        ensures behind { IsBehind self.new (overlap + 1) }
        ensures overlap { self.new.overlap ≡ overlap }
        ensures nothing { (name : TheName) → seen self.new name ≡ None }
        ensures flagged { IsFlagged self.new }
    {
        self.overlap = overlap;
        self.clashes = false;
    }

    pub(crate) fn turn_to(&mut self, part: u32)
        ensures { self.new ≡ record self.old { part = part } }
    {
        self.part = part;
    }

    pub(crate) fn read(&mut self, name: NameId)
        ensures { Noted self.old self.new (is_same name) (λ n. false) }
    {
        self.touch(name, false);
    }

    pub(crate) fn write(&mut self, name: NameId)
        ensures { Noted self.old self.new (λ n. false) (is_same name) }
    {
        self.touch(name, true);
    }

    // Whether two parts may clash.
    pub(crate) fn may_clash(&self) -> bool
        ensures { result ≡ self.now.clashes }
    {
        self.clashes
    }

    // The interference for the variable of this name, whose number is given.
    #[tactic(auto, unfolding(crate::specs::Touches::seen))]
    pub(crate) fn shared(&self, name: NameId, number: u32) -> Option<Rule>
        ensures { result ≡ or_else_rule number (pair_of (seen self.now name)) None }
    {
        match row_at(self.touches.as_slice(), name.0 as usize) {
            Some(touch) => shared_in(touch, self.overlap, number),
            None => None,
        }
    }

    fn touch(&mut self, name: NameId, writes: bool)
        ensures keeps { Keeps self.old self.new }
        ensures touched { (n : TheName) → n.0 < size self.old → seen self.new n ≡ (if is_same name n then touched self.old.part writes (seen self.old n) else seen self.old n) }
    {
        let at = name.0 as usize;
        if at < self.touches.len() {
            let touch = touched_by(self.touches[at], self.overlap, self.part, writes);
            self.clashes = has_clash(self.clashes, touch);
            self.touches[at] = touch;
        }
    }
}

fn touched_by(touch: Touch, overlap: u32, part: u32, writes: bool) -> Touch
    ensures overlap { result.overlap ≡ overlap }
    ensures seen { seen_in overlap result ≡ touched part writes (seen_in overlap touch) }
{
    if touch.overlap != overlap {
        Touch {
            overlap,
            part,
            writes,
            other: None,
        }
    } else if touch.part == part {
        Touch {
            writes: touch.writes || writes,
            ..touch
        }
    } else if touch.other.is_none() && (touch.writes || writes) {
        Touch {
            other: Some(part),
            ..touch
        }
    } else {
        touch
    }
}

fn has_clash(clashes: bool, touch: Touch) -> bool
    ensures { result ≡ (clashes || is_some touch.other) }
{
    clashes || touch.other.is_some()
}

fn row_at(touches: &[Touch], at: usize) -> Option<Touch>
    ensures { result ≡ slice_get touches.now at }
{
    touches.get(at).copied()
}

fn shared_in(touch: Touch, overlap: u32, number: u32) -> Option<Rule>
    ensures { result ≡ or_else_rule number (pair_of (seen_in overlap touch)) None }
{
    if touch.overlap != overlap {
        return None;
    }
    match touch.other {
        Some(other) => Some(Rule::Interference(number, touch.part, other)),
        None => None,
    }
}
