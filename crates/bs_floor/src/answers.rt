// What the calls of a floor answer.
use crate::station::Bound;
use bs_tree::List;

/// Where a posted item stands: the place of its station, and its number in that station's history.
/// Both are counted from 0.
#[derive(Debug, Drop)]
pub struct Position {
    pub station: u32,
    pub number: u64,
}

/// An item that was served: its number in the station's history, counted from 0, and what serving it
/// sent, in order.
#[derive(Debug, Drop)]
pub struct Served<I> {
    pub number: u64,
    pub sends: List<Bound<I>>,
}

/// Why an item isn't posted. It hands the item back.
#[derive(Debug, Drop)]
pub enum PostFault<I> {
    /// The seat `by`, which is another one, held the station as this call tried to take it.
    Busy { by: u32, item: I },
    /// There is no memory for the item or for its position.
    Memory(I),
}

/// Why no item is served.
#[derive(Debug, Drop)]
pub enum ServeFault {
    /// The seat `by`, which is another one, held the station as this call tried to take it.
    Busy { by: u32 },
    /// All items are served: the number of items posted and of items served, which were equal while
    /// this call held the station.
    Idle { posted: u64, served: u64 },
    /// The station had no memory to serve the item.
    Memory,
}
