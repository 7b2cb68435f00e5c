//! Emulation of a program by messages: each is served by its chare, one after the other.
//!
//! `docs/model.md` says what it gives.
#![tactic(auto)]

mod collected;
mod emulated;
mod emulation;
mod stop;
mod world;

pub use emulated::Emulated;
pub use emulation::emulate_alone;
