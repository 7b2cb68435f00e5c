// What messages cost on a machine.
ghost use Rattle.bs_net.specs.Range.{IsCosts};

/// The numbers that the latency of a message is made of, in ticks but for the last two.
#[derive(Clone, Copy, Debug, Drop)]
pub struct Costs {
    /// The latency on one processor, from 1 to 2^38.
    pub own: u64,
    /// The latency between two processors of one node, from 1 to 2^38.
    pub local: u64,
    /// What each message between nodes costs, from 1 to 2^38.
    pub base: u64,
    /// What each hop adds, from 0 to 4,194,304.
    pub hop: u64,
    /// `num` ticks for each `den` bytes, rounded up; from 0 to 256.
    pub num: u32,
    /// From 1 to 65,535.
    pub den: u32,
    pub ghost in_range: { IsCosts own local base hop num den },
}
