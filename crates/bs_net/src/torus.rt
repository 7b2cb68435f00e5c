// The torus: a ring of nodes in each dimension, and processors on each node.
ghost use Rattle.std.specs.Prelude.{◌≡◌, ◌<◌, ◌≤◌, ◌-◌, ◌^◌, min, IsTrue, IfOk, IfErr, false};
ghost use Rattle.std.specs.List.{list_all};
ghost use Rattle.bs_net.specs.Range.{is_size, are_sizes, is_torus, processors_in, most_processors};
ghost use Rattle.bs_net.specs.Ring.{nodes_of, steps_in_ring, hops_between};

use bs_tree::List;

/// Why a torus is refused.
#[derive(Clone, Copy, Debug, PartialEq, Eq, Drop)]
pub enum NetFault {
    /// A number is out of its range.
    Range,
    Memory,
}

/// A torus of nodes. Its processors are numbered from 0, node by node; its nodes are numbered from
/// 0, and their places in the first ring change fastest.
#[derive(Debug, Drop)]
pub struct Torus {
    /// How long each ring is: 1 to 6 numbers, each from 1 to 65,536.
    pub sizes: List<u32>,
    /// The processors of each node, from 1 to 65,536, and at most 65,536 of all nodes together.
    pub per_node: u32,
    pub ghost in_range: { IsTrue (is_torus sizes per_node) },
}

impl Torus {
    ghost use Rattle.bs_net.specs.Torus.{processors_of, node_of, hops_of};

    /// The torus of these rings and of so many processors on each node. It takes no memory.
    /// `Range` comes exactly where the two are out of their ranges, and it is the only refusal.
    pub fn new(sizes: List<u32>, per_node: u32) -> Result<Torus, NetFault>
        ensures ok { IfOk result (λ torus. (torus.sizes ≡ sizes) × (torus.per_node ≡ per_node)) }
        ensures range { IfErr result (λ fault. (fault ≡ NetFault.Range) × (is_torus sizes per_node ≡ false)) }
    {
        if is_in_range(sizes.as_slice(), per_node) {
            Ok(Torus { sizes, per_node })
        } else {
            Err(NetFault::Range)
        }
    }

    /// How many processors there are.
    pub fn processors(&self) -> u32
        ensures value { result ≡ processors_of self.now }
        ensures some { 1 ≤ result }
        ensures most { result ≤ most_processors }
    {
        capped_processors(self.sizes.as_slice(), self.per_node) as u32
    }

    /// The node of a processor.
    pub fn node(&self, processor: u32) -> u32
        requires { processor < processors_of self.now }
        ensures value { result ≡ node_of self.now processor }
        ensures below { result < nodes_of self.now.sizes }
    {
        processor / self.per_node
    }

    /// The hops between the nodes of two processors: in each ring the shorter way.
    pub fn hops(&self, a: u32, b: u32) -> u32
        requires first { a < processors_of self.now }
        requires second { b < processors_of self.now }
        ensures value { result ≡ hops_of self.now a b }
        ensures fewer { result < processors_of self.now }
    {
        let (mut from, mut to) = (self.node(a), self.node(b));
        let mut hops = 0;
        for size in self.sizes.as_slice() {
            hops += ring_steps(*size, from % *size, to % *size);
            from /= *size;
            to /= *size;
        }
        hops
    }
}

fn is_in_range(sizes: &[u32], per_node: u32) -> bool
    ensures { result ≡ is_torus sizes.now per_node }
{
    are_lengths(sizes) && is_length(per_node) && capped_processors(sizes, per_node) <= 65536
}

fn are_lengths(sizes: &[u32]) -> bool
    ensures { result ≡ are_sizes sizes.now }
{
    1 <= sizes.len() && sizes.len() <= 6 && each_is_length(sizes)
}

fn each_is_length(sizes: &[u32]) -> bool
    ensures { result ≡ list_all is_size sizes.now }
{
    for size in sizes {
        if !is_length(*size) {
            return false;
        }
    }
    true
}

// Whether a ring may be so long, or a node so full.
fn is_length(n: u32) -> bool
    ensures { result ≡ is_size n }
{
    1 <= n && n <= 65536
}

// The shorter way between two places of a ring.
fn ring_steps(size: u32, a: u32, b: u32) -> u32
    requires first { a < size }
    requires second { b < size }
    ensures value { result ≡ steps_in_ring size a b }
    ensures fewer { result < size }
{
    let gap = a.abs_diff(b);
    gap.min(size - gap)
}

// The product of all the numbers, or 2^64 - 1 where it is more.
fn capped_processors(sizes: &[u32], per_node: u32) -> u64
    ensures { result ≡ min (processors_in sizes.now per_node) (2 ^ 64 - 1) }
{
    let mut processors = u64::from(per_node);
    for size in sizes {
        processors = processors.saturating_mul(u64::from(*size));
    }
    processors
}
