// What stands on a floor.
ghost use Rattle.std.specs.Prelude.{◌≡◌, ℕ, ◌<◌, List, IfOk, OnErr};
ghost use Rattle.bs_floor.specs.declared.station.Bound.{Bound};
ghost use Rattle.bs_floor.specs.Stations.{AllFit};

use bs_tree::List;
use std::alloc::AllocError;

/// An item for a station.
#[derive(Debug, Drop)]
pub struct Bound<I> {
    /// The place of the station, counted from 0.
    pub to: u32,
    pub item: I,
}

/// What stands on a floor, and serves items one after another.
///
/// Contracts see a station as its whole value, which is its job, its place and its state together. A
/// type that holds an allocator, references or room to grow leaves them out by a `Model`. The job is
/// plain data, of which only contracts speak: what all stations of one floor work on. The places of a
/// job are counted from 0.
///
/// A floor is shared between threads where the type and its items are `Send` and `Sync`. Nothing here
/// asks for `'static`.
pub trait Station: Drop {
    /// What the stations of one floor work on together.
    type Job;

    /// What is posted to a station, and served there.
    type Item: Drop;

    ghost job: { Self → Self.Job };

    ghost place: { Self → ℕ };

    // how many places a job has
    ghost places: { Self.Job → ℕ };

    // the state in which the station at a place begins
    ghost opening: { Self.Job → ℕ → Self };

    // the state after an item
    ghost next: { Self → Self.Item → Self };

    // what serving an item sends
    ghost sends: { Self → Self.Item → List (Bound Self.Item) };

    // whether a state may stand at a place of a job
    ghost sound: { Self.Job → ℕ → Self → Type 0 };

    // whether an item may be posted at a place of a job
    ghost fits: { Self.Job → ℕ → Self.Item → Type 0 };

    /// Serves an item that fits, and answers what it sends, in order. The only refusal is want of
    /// memory, and the station then stays as it was. It never changes the job or the place.
    fn serve(&mut self, item: &Self::Item) -> Result<List<Bound<Self::Item>>, AllocError>
        requires sound { sound (job self.old) (place self.old) self.old }
        requires fits { fits (job self.old) (place self.old) item.now }
        ensures ok { IfOk result (λ sent. (self.new ≡ next self.old item.now) × (sent ≡ sends self.old item.now)) }
        ensures err { OnErr result (self.new ≡ self.old) };

    // the opening state is sound
    ghost opens_sound: { (j : Self.Job) (p : ℕ) → p < places j → sound j p (opening j p) };

    // an item that fits keeps a sound state sound
    ghost stays_sound: { (j : Self.Job) (p : ℕ) (s : Self) (x : Self.Item) → job s ≡ j → place s ≡ p → sound j p s → fits j p x → sound j p (next s x) };

    // no item changes the job or the place
    ghost stays_there: { (s : Self) (x : Self.Item) → (job (next s x) ≡ job s) × (place (next s x) ≡ place s) };

    // an item that fits sends only to places that the job has, and only items that fit there
    ghost sends_fit: { (j : Self.Job) (p : ℕ) (s : Self) (x : Self.Item) → job s ≡ j → place s ≡ p → sound j p s → fits j p x → AllFit (places j) (fits j) (sends s x) };
}
