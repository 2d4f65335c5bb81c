// One event by a call: the answer, and the active domain after it. "Any other refused call .. gives back state, map and grid as they came, with
// counts 0".
use crate::after::with_active;
use crate::case_l;
use crate::contexts::state;
use crate::maps::{grid, map};
use crate::say::{Out, Said};
use crate::table::Pieces;
use model::call::Stepped;
use model::event::Event;
use std::fmt;
use std::fmt::Write;

fn told(out: &mut Out, s: Stepped) -> fmt::Result {
    write!(out, "{}, active {}", Said(s.reply), s.state.active)
}

// An event is its kind and, for a word in, the domain and the word. The kinds are numbers in standard input, which stays.
fn event_of(numbers: Pieces<'_>) -> Event {
    match numbers.number::<u64>(0) {
        1 => Event::Step,
        2 => Event::Tick,
        _ => Event::WordIn(numbers.number(1), numbers.number(2)),
    }
}

// NAME: Event;MAP;ACTIVE;LENGTH;EVENT
pub fn event(out: &mut Out, case: Pieces<'_>) -> fmt::Result {
    let mut space = [0; 256];
    let Some(memory) = space.get_mut(..case.number(5)) else {
        return Ok(());
    };
    let s = with_active(case.number(4));
    let e = event_of(case.numbers(6));
    told(out, machine::event(map(case), grid(case), s, memory, e))
}

// The call that is for an event's kind alone: a match on the enum's own cases.
// NAME: Call;EVENT;ACTIVE;DOMAIN;DOMAIN;DOMAIN
pub fn call(out: &mut Out, case: Pieces<'_>) -> fmt::Result {
    let (m, g, s) = (case_l::map(), case_l::grid(), state(case));
    let mut memory = [0; 256];
    let stepped = match event_of(case.numbers(1)) {
        Event::Step => machine::step(m, g, s, &mut memory),
        Event::Tick => machine::tick(m, g, s, &mut memory),
        Event::WordIn(d, w) => machine::word_in(m, g, s, &mut memory, d, w),
    };
    told(out, stepped)
}
