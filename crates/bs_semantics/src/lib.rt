//! What programs mean, by definition: the value of an expression, the block of a list of acts, the
//! history of a chare under a mail, the rounds of a program and their verdict, and the serial
//! machine model. The definitions stand in `specs/`; `laws` has what is proved of them.
//!
//! `docs/model.md` says the same in prose.
#![tactic(auto)]

pub mod laws;
