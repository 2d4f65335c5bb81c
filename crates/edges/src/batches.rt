// "A batch takes a limit of steps and stops early when idle", by the call itself.
use crate::after::{play_on, with_active};
use crate::case_l;
use crate::say::{Out, Said};
use crate::table::Pieces;
use model::call::Ending;
use std::fmt;
use std::fmt::Write;

impl fmt::Display for Said<Ending> {
    fn fmt<W: fmt::Write>(&self, f: &mut fmt::Formatter<W>) -> fmt::Result {
        match self.0 {
            Ending::Spent => f.write_str("spent"),
            Ending::Idle => f.write_str("idle"),
        }
    }
}

// NAME: Batch;PROGRAM;PROGRAM;TRACE;ACTIVE;LENGTH;N
pub fn batch(out: &mut Out, case: Pieces<'_>) -> fmt::Result {
    let mut space = case_l::memory(case);
    let Some(memory) = space.get_mut(..case.number(5)) else {
        return Ok(());
    };
    let played = play_on(with_active(case.number(4)), memory, case.text(3));
    let done = machine::batch(
        case_l::map(),
        case_l::grid(),
        played.state,
        memory,
        case.number(6),
    );
    write!(
        out,
        "steps {}, {}, active {}",
        done.steps,
        Said(done.ending),
        done.state.active
    )
}
