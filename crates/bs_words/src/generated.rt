// The three words of a program to generate.
ghost use Rattle.std.specs.Prelude.{◌≡◌, IfSome};
ghost use Rattle.bs_words.specs.Generated.{IsGenerated, asked_program as asked_program_of};

use crate::roles::number;
use bs_gen::Workload;

/// A program to generate: its kind, its number of chares, from 1 to 512, and its seed, from 0 to 999,999.
#[derive(Clone, Copy, Debug, PartialEq, Eq, Drop)]
pub struct Generated {
    pub kind: Workload,
    pub chares: u32,
    pub seed: u32,
}

/// The program that three words ask to generate: a kind, a number of chares and a seed. There is none exactly
/// where the first word names no kind, or one of the others is no plain decimal in its range. It takes no
/// memory.
pub fn asked_program(kind: &str, chares: &str, seed: &str) -> Option<Generated>
    ensures value { result ≡ asked_program_of kind.now chares.now seed.now }
    ensures range { IfSome result IsGenerated }
{
    let kind = Workload::named(kind)?;
    let chares = number(chares.as_bytes(), 1, 512)?;
    let seed = number(seed.as_bytes(), 0, 999_999)?;
    Some(Generated {
        kind,
        chares: chares as u32,
        seed: seed as u32,
    })
}
