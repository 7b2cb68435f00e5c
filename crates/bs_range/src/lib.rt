//! The range of the numbers of a program: each value that it computes has 64 bits, since an operator
//! whose result has more is a trap, and so the log of a Clean verdict is valid. There is no code that
//! runs here: `laws` has what is proved.
//!
//! `docs/model.md` and `docs/log.md` say the same in prose.
#![tactic(auto)]

pub mod laws;
