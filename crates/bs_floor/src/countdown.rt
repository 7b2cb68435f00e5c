// A station that counts down, with which the tests try a floor.
ghost use Rattle.std.specs.Prelude.{◌≡◌, ◌<◌, refl};
ghost use Rattle.bs_floor.specs.Countdown.{Countdown as Sum, next_sum, sends_of, IsFew, IsSum};
ghost use Rattle.bs_floor.specs.CountdownLaws.{opens_with_sum, keeps_sum, sends_go_round};

use crate::station::{Bound, Station};
use bs_tree::List;
use std::alloc::{AllocError, Global};
use std::marker::Model;
use std::sync::atomic::{AtomicU64, Ordering};

/// A station whose state is the sum of the items that it served. An item above 0 goes on to the next
/// place, less 1, and from the last place to the first. An item fits that is at most twice the number of
/// places, which is the job: so a floor must tell its job before anything can be posted.
#[derive(Drop)]
pub struct Countdown {
    alloc: Global,
    place: u32,
    places: u32,
    sum: u64,
}

impl Model for Countdown {
    ghost Value = { Sum };

    ghost view = { λ s. (s.place, s.places, s.sum) };

    ghost invariant = { λ s. s.place < s.places };
}

impl Countdown {
    pub fn new(alloc: Global, place: u32, places: u32) -> Countdown
        requires { place < places }
        ensures { result ≡ (place, places, 0) }
    {
        Countdown {
            alloc,
            place,
            places,
            sum: 0,
        }
    }

    pub fn sum(&self) -> u64
        ensures { result ≡ self.now.2 }
    {
        self.sum
    }
}

impl Station for Countdown {
    type Job = u32;

    type Item = u64;

    ghost job = { λ s. s.1 };

    ghost place = { λ s. s.0 };

    ghost places = { λ j. j };

    ghost opening = { λ j p. (p, j, 0) };

    ghost next = { next_sum };

    ghost sends = { sends_of };

    ghost sound = { IsSum };

    ghost fits = { IsFew };

    fn serve(&mut self, item: &u64) -> Result<List<Bound<u64>>, AllocError> {
        let mut sends = List::new(self.alloc);
        if *item > 0 {
            let to = ((u64::from(self.place) + 1) % u64::from(self.places)) as u32;
            sends.push(Bound {
                to,
                item: *item - 1,
            })?;
        }
        self.sum = self.sum.wrapping_add(*item);
        Ok(sends)
    }

    ghost opens_sound = { opens_with_sum };

    ghost stays_sound = { keeps_sum };

    ghost stays_there = { λ s x. (refl, refl) };

    ghost sends_fit = { sends_go_round };
}

/// A station that counts down, and counts what is served at it and at others in a word that they share.
#[derive(Drop)]
pub struct Counted<'c> {
    countdown: Countdown,
    served: &'c AtomicU64,
}

impl<'c> Model for Counted<'c> {
    ghost Value = { Sum };

    ghost view = { λ s. s.countdown };
}

impl<'c> Counted<'c> {
    pub fn new(countdown: Countdown, served: &'c AtomicU64) -> Counted<'c>
        ensures { result ≡ countdown }
    {
        Counted { countdown, served }
    }
}

impl<'c> Station for Counted<'c> {
    type Job = u32;

    type Item = u64;

    ghost job = { λ s. s.1 };

    ghost place = { λ s. s.0 };

    ghost places = { λ j. j };

    ghost opening = { λ j p. (p, j, 0) };

    ghost next = { next_sum };

    ghost sends = { sends_of };

    ghost sound = { IsSum };

    ghost fits = { IsFew };

    fn serve(&mut self, item: &u64) -> Result<List<Bound<u64>>, AllocError> {
        let sends = self.countdown.serve(item)?;
        self.served.fetch_add(1, Ordering::SeqCst);
        Ok(sends)
    }

    ghost opens_sound = { opens_with_sum };

    ghost stays_sound = { keeps_sum };

    ghost stays_there = { λ s x. (refl, refl) };

    ghost sends_fit = { sends_go_round };
}
