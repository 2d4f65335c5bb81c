// "The writer sets exactly the sheet's bytes and leaves the rest." What the reader gives back beside them.
use crate::case_l;
use crate::maps::{grid, map};
use crate::node::ROOM;
use crate::numbers::bytes;
use crate::say::{Out, Said};
use crate::table::Pieces;
use model::MOST;
use std::fmt;
use std::fmt::Write;

// How many bytes a sheet's writer set.
impl fmt::Display for Said<usize> {
    fn fmt<W: fmt::Write>(&self, f: &mut fmt::Formatter<W>) -> fmt::Result {
        write!(f, "wrote {}", self.0)
    }
}

// A buffer of LENGTH bytes, each 255 before, in front of more of them.
// NAME: Write;MAP;LENGTH
pub fn write(out: &mut Out, case: Pieces<'_>) -> fmt::Result {
    let mut space = [255; ROOM];
    if let Some(buffer) = space.get_mut(..case.number(4)) {
        write!(out, "{}", Said(sheet::write(map(case), grid(case), buffer)))?;
    }
    for at in [0, 59, 60] {
        write!(out, ", byte {at} is {}", space[at])?;
    }
    Ok(())
}

// The bytes that the writer sets are those of Case L's sheet.
// NAME: Identical
pub fn identical(out: &mut Out) -> fmt::Result {
    let mut buffer = [0; 60];
    let writing = Said(sheet::write(case_l::map(), case_l::grid(), &mut buffer));
    let as_read = if buffer.as_slice() == bytes::<60>(case_l::SHEET).as_slice() {
        ", as read"
    } else {
        ""
    };
    write!(out, "{writing}{as_read}")
}

// "On refusal the map is all zero and the grid all no." The grid was all yes before.
// NAME: Read;CUT
pub fn read(out: &mut Out, case: Pieces<'_>) -> fmt::Result {
    let mut g = [[true; MOST]; MOST];
    let bytes = bytes::<60>(case_l::SHEET);
    let cut = bytes.as_slice().get(..case.number(1)).unwrap_or_default();
    let got = sheet::read(cut, &mut g);
    let m = got.map;
    let first = m.domains[0];
    write!(
        out,
        "{}, length {}, count {}, entry {}, marks",
        Said(got.reading.map(|()| "whole")),
        m.length,
        m.count,
        first.entry
    )?;
    for mark in [g[0][0], g[0][1], g[1][0], g[7][7]] {
        out.write_str(if mark { " yes" } else { " no" })?;
    }
    Ok(())
}
