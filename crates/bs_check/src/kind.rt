// What a name is declared as.

/// What a name of a program is declared as.
#[derive(Clone, Copy, Debug, PartialEq, Eq, Drop)]
pub enum Kind {
    /// A variable of one cell: the number of the cell, counted from 0 over all variables.
    Scalar(u32),
    /// An array: the number of its first cell, and how many cells it has.
    Array(u32, u32),
    /// An entry: its number, counted from 0 over all entries, and how many parameters it has.
    Entry(u32, u32),
}
