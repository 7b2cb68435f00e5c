// What can be wrong with a chain.

/// The rules of a sound chain, in the order in which they are asked at a place.
#[derive(Clone, Copy, Debug, PartialEq, Eq, Drop)]
pub enum ChainRule {
    /// The row isn't in the log.
    BadRow,
    /// The start isn't the row's.
    BadStart,
    /// At place 0 the link isn't `First`, or the row doesn't start at tick 0. At another place the link
    /// doesn't name the row at the place before; or that isn't the row before this one on its processor,
    /// isn't a block cause of it, or its message isn't a message cause of it.
    BadLink,
    /// The step isn't 0 at place 0. At another place it isn't how long the row before takes, or its
    /// message; or it doesn't lead from the start of the row before to the start of this one.
    BadStep,
    /// Behind the last row: the span isn't the greatest end, the rest isn't how long the last row takes, or
    /// the steps and the rest don't add up to the span.
    BadEnd,
}

/// The first place, counted from 0, at which a rule is broken, and the first rule that is broken there.
#[derive(Clone, Copy, Debug, PartialEq, Eq, Drop)]
pub struct ChainFault {
    /// At most the number of the chain's rows, where it is the place behind the last one.
    pub place: u32,
    pub rule: ChainRule,
}
