// The three words of a statement to tune.
ghost use Rattle.std.specs.Prelude.{◌≡◌, IfSome};
ghost use Rattle.bs_words.specs.Tuning.{IsTuning, asked_tuning as asked_tuning_of};

use crate::roles::number;

/// A statement that costs a fraction: the statement, from 1 to 10,000, and the fraction `num / den`, with `den`
/// from 1 to 65,535 and `num` from 1 to `den`.
#[derive(Clone, Copy, Debug, PartialEq, Eq, Drop)]
pub struct Tuning {
    pub stmt: u32,
    pub num: u32,
    pub den: u32,
}

/// The tuning that three words ask for: a statement, and the upper and the lower number of a fraction. There is
/// none exactly where one of them is no plain decimal in its range. It takes no memory.
pub fn asked_tuning(stmt: &str, num: &str, den: &str) -> Option<Tuning>
    ensures value { result ≡ asked_tuning_of stmt.now num.now den.now }
    ensures range { IfSome result IsTuning }
{
    let stmt = number(stmt.as_bytes(), 1, 10_000)?;
    let den = number(den.as_bytes(), 1, 65_535)?;
    let num = number(num.as_bytes(), 1, den)?;
    Some(Tuning {
        stmt: stmt as u32,
        num: num as u32,
        den: den as u32,
    })
}
