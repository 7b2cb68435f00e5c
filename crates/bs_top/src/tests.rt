// Commands over whole desks. What comes of them was worked out by hand, or is told by another command.
mod agreement;
mod failing;
mod fixtures;
mod limits;
mod logs;
mod outside;
mod programs;
mod refusals;
mod session;
mod sweeps;
mod workloads;
