// What can be wrong with the text of a number.
use thiserror::Error;

/// Why a text is not read as a number.
#[derive(Clone, Copy, Debug, PartialEq, Eq, Drop, Error)]
pub enum NumFault {
    /// The text is no plain decimal.
    #[error("not a number")]
    NotANumber,
    /// The text is a plain decimal outside the range that is asked for.
    #[error("too large")]
    TooLarge,
}
