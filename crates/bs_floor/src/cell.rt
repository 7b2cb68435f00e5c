// What is done with the cell of a station while it is in hand.
ghost use Rattle.std.specs.Prelude.{◌≡◌, ℕ, ◌+◌, ◌^◌, ◌<◌, length, IfOk, IfErr, OnErr};
ghost use Rattle.bs_floor.specs.Serving.{ServesNext, MayServe};
ghost use Rattle.bs_floor.specs.History.{with_item};

use crate::station::{Bound, Station};
use bs_tree::List;
use std::alloc::AllocError;

/// A station with its history: the items posted to it, in order, of which the first `served` are
/// served.
#[derive(Drop)]
pub struct Cell<S: Station> {
    pub station: S,
    pub posted: List<S::Item>,
    pub served: u64,
}

impl<S: Station> Cell<S> {
    // Serves the first item that isn't served, which there is.
    pub(crate) fn serve_next(&mut self) -> Result<List<Bound<S::Item>>, AllocError>
        requires may { MayServe S.Station self.old }
        requires some_item { self.old.served < length self.old.posted }
        ensures ok { IfOk result (λ sends. ServesNext S.Station self.old self.new sends) }
        ensures err { OnErr result (self.new ≡ self.old) }
    {
        let sends = self
            .station
            .serve(&self.posted.as_slice()[self.served as usize])?;
        self.served += 1;
        Ok(sends)
    }

    // Puts an item behind the others, and answers how many there are then. Where memory is wanting it
    // hands the item back.
    pub(crate) fn post_last(&mut self, item: S::Item) -> Result<u64, S::Item>
        ensures ok { IfOk result (λ n. (self.new ≡ with_item S.Station self.old item) × (n ≡ length self.old.posted + 1) × (n < 2 ^ 64)) }
        ensures err { IfErr result (λ returned. (returned ≡ item) × (self.new ≡ self.old)) }
    {
        self.posted.push_or_return(item)?;
        Ok(self.posted.as_slice().len() as u64)
    }
}
