// "A view returns the data sub-region of domain d as that part of the caller's memory, not a copy; for any refusal it returns the empty part at
// the front, and a companion call gives the number."
use crate::maps::{grid, map};
use crate::say::{Out, Said};
use crate::table::Pieces;
use std::fmt;
use std::fmt::Write;

// NAME: View;MAP;D;LENGTH, where the memory has 1 at 64, 2 at 95, 3 at 128 and 4 at 159.
pub fn view(out: &mut Out, case: Pieces<'_>) -> fmt::Result {
    let (m, g, d) = (map(case), grid(case), case.number(4));
    let mut memory = [0; 256];
    memory[64] = 1;
    memory[95] = 2;
    memory[128] = 3;
    memory[159] = 4;
    let lent = memory.get(..case.number(5)).unwrap_or_default();
    let own = machine::view(m, g, lent, d);
    let verdict = Said(machine::view_verdict(m, g, lent, d).map(|()| "accepted"));
    write!(out, "{verdict}, bytes {}", own.len())?;
    if let (Some(first), Some(last)) = (own.first(), own.last()) {
        write!(out, ", first {first}, last {last}")?;
    }
    Ok(())
}
