// "Other calls test the map as the writer would meet it (count and unused entries, 3, 4 for the kernel, then 4, 5, 6 for each domain in turn,
// then 7)": at start. "a refused start gives active 0 and every context zero and halted".
use crate::answer::DomainOf;
use crate::maps::{grid, map};
use crate::say::{Out, Said};
use crate::table::Pieces;
use std::fmt;
use std::fmt::Write;

// NAME: Start;MAP;D
pub fn start(out: &mut Out, case: Pieces<'_>) -> fmt::Result {
    let started = machine::start(map(case), grid(case));
    let verdict = Said(started.verdict.map(|()| "accepted"));
    match case.number(4) {
        0 => write!(out, "{verdict}, active {}", started.state.active),
        d => write!(out, "{verdict}{}", DomainOf(started.state, d)),
    }
}
