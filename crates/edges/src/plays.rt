// "Playing a trace stops at its first broken record with 11 or 12, its offset and the events done", by the call itself.
use crate::after::{play_on, with_active};
use crate::say::{Out, Said};
use crate::table::Pieces;
use model::call::Stop;
use std::fmt;
use std::fmt::Write;

impl fmt::Display for Said<Stop> {
    fn fmt<W: fmt::Write>(&self, f: &mut fmt::Formatter<W>) -> fmt::Result {
        match self.0 {
            Stop::Broken(r) => Said(r).fmt(f),
            Stop::Refused(r) => Said(r).fmt(f),
        }
    }
}

// NAME: Play;ACTIVE;LENGTH;TRACE
pub fn play(out: &mut Out, case: Pieces<'_>) -> fmt::Result {
    let mut space = [0; 256];
    let Some(memory) = space.get_mut(..case.number(2)) else {
        return Ok(());
    };
    let done = play_on(with_active(case.number(1)), memory, case.text(3));
    write!(
        out,
        "{}, events {}, active {}",
        Said(done.close.map(|()| "done")),
        done.events,
        done.state.active
    )
}
