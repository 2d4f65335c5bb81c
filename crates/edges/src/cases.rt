// The table's cases: a name, a colon and a space, and then fields, of which the first one's letter says what the others are.
use crate::batches::batch;
use crate::eight::largest;
use crate::events::{call, event};
use crate::questions::may;
use crate::say::Out;
use crate::starts::start;
use crate::table::Pieces;
use crate::views::view;
use crate::writers::{identical, read, write};
use crate::{after, node, plays};
use std::fmt;

// A letter and no enum of the verbs: the codes are standard input's, which stays, and each is met here alone.
fn outcome(out: &mut Out, case: Pieces<'_>) -> fmt::Result {
    match case.text(0).first() {
        Some(b'B') => batch(out, case),
        Some(b'C') => call(out, case),
        Some(b'E') => event(out, case),
        Some(b'I') => identical(out),
        Some(b'L') => largest(out, case),
        Some(b'M') => may(out, case),
        Some(b'P') => plays::play(out, case),
        Some(b'R') => read(out, case),
        Some(b'S') => start(out, case),
        Some(b'V') => view(out, case),
        Some(b'W') => write(out, case),
        Some(b'e') => node::eight(out, case),
        Some(b'p') => after::play(out, case),
        Some(b's') => node::sheet(out, case),
        _ => Ok(()),
    }
}

// NAME: VERB;FIELD;FIELD ..
pub fn tell(out: &mut Out, line: &[u8]) {
    let mut parts = line.splitn(2, |b| *b == b':');
    let name = parts.next().unwrap_or_default();
    let fields = parts.next().and_then(|rest| rest.get(1..));
    out.bytes(name);
    out.bytes(b": ");
    // No piece fails.
    let _ = outcome(out, Pieces::fields(fields.unwrap_or_default()));
    out.bytes(b"\n");
}
