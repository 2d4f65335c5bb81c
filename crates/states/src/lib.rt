// A state alone: whether it is well formed, the start, the switch, and what a tick and a word in make of it.
#![tactic(auto)]

pub mod event;
pub mod good;
pub mod receive;
pub mod start;
pub mod switch;
