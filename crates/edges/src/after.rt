// A case by the program's lines, with what they do not show: a domain's context, or bytes of the memory, after the trace.
use crate::answer::DomainOf;
use crate::case_l;
use crate::node::{ROOM, TRACE, transcript};
use crate::numbers::bytes;
use crate::say::Out;
use crate::table::Pieces;
use model::call::Played;
use model::state::State;
use std::fmt;
use std::fmt::Write;

// Case L's state at its start, with another active domain.
pub fn with_active(active: u8) -> State {
    State {
        active,
        ..machine::start(case_l::map(), case_l::grid()).state
    }
}

// A trace on a state.
pub fn play_on(s: State, memory: &mut [u8], trace: &[u8]) -> Played {
    let trace = bytes::<TRACE>(trace);
    machine::play(case_l::map(), case_l::grid(), s, memory, trace.as_slice())
}

// The four bytes from an address on, where there is one.
fn bytes_from(out: &mut Out, memory: &[u8], case: Pieces<'_>) -> fmt::Result {
    if case.text(5).is_empty() {
        return Ok(());
    }
    let at: u8 = case.number(5);
    write!(out, ", bytes from {at}:")?;
    for b in memory.iter().skip(usize::from(at)).take(4) {
        write!(out, " {b}")?;
    }
    Ok(())
}

// NAME: play;PROGRAM;PROGRAM;TRACE;D;AT
pub fn play(out: &mut Out, case: Pieces<'_>) -> fmt::Result {
    let mut memory = case_l::memory(case);
    let mut copy = memory;
    let sheet = bytes::<ROOM>(case_l::SHEET);
    transcript(out, sheet.as_slice(), &mut copy, case.text(3))?;
    if case.text(4).is_empty() {
        return Ok(());
    }
    let played = play_on(with_active(1), &mut memory, case.text(3));
    write!(out, "{}", DomainOf(played.state, case.number(4)))?;
    bytes_from(out, &memory, case)
}
