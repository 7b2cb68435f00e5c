//! The history of a chare under a mail, by plain recursion over its body.
//!
//! Where a run stops, it leaves what it does next, and goes on from that once its mail has grown. An `overlap`
//! with a part that hasn't ended is left whole.
//!
//! `docs/model.md` says what a history is, and what each statement does.
#![tactic(auto)]

mod causes;
mod chare;
mod control;
mod course;
mod fault;
mod frame;
mod ground;
mod joined;
mod ordered;
mod resume;
mod serial;
mod statements;
mod trail;
mod waiting;
mod writes;

pub use chare::history;
pub use course::{Course, Stage};
pub use fault::HistoryFault;
pub use trail::Lists;
