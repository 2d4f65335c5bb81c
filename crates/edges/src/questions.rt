// "A public question asks whether domain d may read, write or fetch address a: yes, no, or a refusal."
use crate::maps::{grid, map};
use crate::say::{Out, Said};
use crate::table::Pieces;
use model::map::Access;
use std::fmt;
use std::fmt::Write;

// By its first letter: the codes are standard input's, which stays.
fn access(word: &[u8]) -> Access {
    match word.first() {
        Some(b'r') => Access::Read,
        Some(b'w') => Access::Write,
        _ => Access::Fetch,
    }
}

// The question's answer.
impl fmt::Display for Said<bool> {
    fn fmt<W: fmt::Write>(&self, f: &mut fmt::Formatter<W>) -> fmt::Result {
        f.write_str(if self.0 { "yes" } else { "no" })
    }
}

// NAME: May;MAP;D;ACCESS;A
pub fn may(out: &mut Out, case: Pieces<'_>) -> fmt::Result {
    let answer = rights::question(
        map(case),
        grid(case),
        case.number(4),
        access(case.text(5)),
        case.number(6),
    );
    write!(out, "{}", Said(answer))
}
