// Which processor each chare is on.
ghost use Rattle.std.specs.Prelude.{◌≡◌, ◌<◌, ◌≤◌, IsTrue};
ghost use Rattle.bs_net.specs.Home.{home_of, is_within, has_length};

use bs_tree::List;

/// How chares are placed on processors. Both are numbered from 0.
#[derive(Debug, Drop)]
pub enum Place {
    /// The chares in their order, in blocks of equal length but for the last ones.
    Block,
    /// The chares in turn.
    Cycle,
    /// The processor of each chare.
    Listed(List<u32>),
}

/// The processor of a chare, of `chares` chares on `processors` processors. It takes constant time
/// and no memory.
pub fn home(place: &Place, chare: u32, chares: u32, processors: u32) -> u32
    requires chare { chare < chares }
    requires processors { 1 ≤ processors }
    requires length { IsTrue (has_length place.now chares) }
    requires within { IsTrue (is_within place.now processors) }
    ensures value { result ≡ home_of place.now chare chares processors }
    ensures below { result < processors }
{
    match place {
        Place::Block => chare / chares.div_ceil(processors),
        Place::Cycle => chare % processors,
        Place::Listed(homes) => homes.as_slice()[chare as usize],
    }
}
