// The commands, each with its steps up to the reply.
pub(crate) mod chain;
pub(crate) mod check;
pub(crate) mod emulate;
pub(crate) mod generate;
mod journal;
pub(crate) mod model;
mod points;
pub(crate) mod predict;
pub(crate) mod run;
pub(crate) mod sweep;
pub(crate) mod trace;
pub(crate) mod trial;
pub(crate) mod tune;
