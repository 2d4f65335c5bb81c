// A case by the program's lines: a sheet, a memory and a trace. What a sheet or a memory is edited by, and a trace, are numbers in decimal.
use crate::numbers::{bytes, put};
use crate::say::Out;
use crate::table::Pieces;
use crate::{case_l, eight};
use std::fmt;

// A byte more than the largest sheet has.
pub const ROOM: usize = 352;

// The most bytes that a trace has.
pub const TRACE: usize = 64;

// What the program prints, with a comma between two lines.
pub fn transcript(out: &mut Out, sheet: &[u8], memory: &mut [u8], trace: &[u8]) -> fmt::Result {
    let trace = bytes::<TRACE>(trace);
    let mut room = [0; 1024];
    let n = lines::transcript(sheet, memory, trace.as_slice(), &mut room);
    let text = room.get(..n).unwrap_or_default();
    for (i, line) in text.split_inclusive(|b| *b == b'\n').enumerate() {
        if 0 < i {
            out.bytes(b", ");
        }
        out.bytes(line.strip_suffix(b"\n").unwrap_or(line));
    }
    Ok(())
}

// Fields 1 to 3: some bytes of the sheet edited, and how many of them there are.
fn edited<'a>(case: Pieces<'_>, sheet: &'a mut [u8]) -> &'a [u8] {
    put(sheet, case.number(1), case.text(2));
    sheet.get(..case.number(3)).unwrap_or_default()
}

// NAME: sheet;AT;BYTES;CUT;LENGTH;TRACE;ENTRY;PROGRAM
pub fn sheet(out: &mut Out, case: Pieces<'_>) -> fmt::Result {
    let mut sheet = [0; ROOM];
    put(&mut sheet, 0, case_l::SHEET);
    let mut space = [0; 257];
    put(&mut space, case.number(6), case.text(7));
    match space.get_mut(..case.number(4)) {
        Some(memory) => transcript(out, edited(case, &mut sheet), memory, case.text(5)),
        None => Ok(()),
    }
}

// NAME: eight;AT;BYTES;CUT;TRACE;ALL
pub fn eight(out: &mut Out, case: Pieces<'_>) -> fmt::Result {
    let mut sheet = [0; ROOM];
    eight::put_sheet(&mut sheet, case.text(5));
    transcript(out, edited(case, &mut sheet), &mut [0; 256], case.text(4))
}
