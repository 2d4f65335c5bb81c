// A map of eight domains: each has four bytes of code, from 32 on, and no data.
use crate::maps::map_of;
use crate::node::ROOM;
use crate::numbers::put;
use crate::say::{Out, Said};
use crate::table::Pieces;
use model::MOST;
use model::call::Writing;
use model::map::Map;
use std::fmt::Write;
use std::{array, fmt};

// From the count on.
fn map() -> Map {
    map_of(
        3,
        b"8 32 36 0 0 32 36 40 0 0 36 40 44 0 0 40 44 48 0 0 44 48 52 0 0 48 52 56 0 0 52 56 60 0 0 56 60 64 0 0 60",
    )
}

// Every channel that there can be.
fn every_channel() -> [[bool; MOST]; MOST] {
    array::from_fn(|from| array::from_fn(|to| from != to))
}

// Its sheet with no channel, 183 bytes.
const SHEET: &[u8] =
    b"1 0 1 0 0 2 0 0 0 0 32 0 0 0 3 32 0 0 0 36 0 0 0 0 0 0 0 0 0 0 0 32 0 0 0 3 36 0 0 0 40 0 0 0 0 0 0 0 0 0 0 0 36 0 0 0 3 40 0 0 0 44 0 0 0 0 0 0 0 0 0 0 0 40 0 0 0 3 44 0 0 0 48 0 0 0 0 0 0 0 0 0 0 0 44 0 0 0 3 48 0 0 0 52 0 0 0 0 0 0 0 0 0 0 0 48 0 0 0 3 52 0 0 0 56 0 0 0 0 0 0 0 0 0 0 0 52 0 0 0 3 56 0 0 0 60 0 0 0 0 0 0 0 0 0 0 0 56 0 0 0 3 60 0 0 0 64 0 0 0 0 0 0 0 0 0 0 0 60 0 0 0 5";

// The largest sheet, 351 bytes: 8 domains and 56 channels.
fn put_largest(buffer: &mut [u8]) -> Writing {
    sheet::write(map(), every_channel(), buffer)
}

// Where `all` is not empty, the largest sheet.
pub fn put_sheet(sheet: &mut [u8], all: &[u8]) {
    if all.is_empty() {
        put(sheet, 0, SHEET);
    } else {
        // The buffer has room.
        let _ = put_largest(sheet);
    }
}

// NAME: Largest;LENGTH
pub fn largest(out: &mut Out, case: Pieces<'_>) -> fmt::Result {
    let mut space = [0; ROOM];
    match space.get_mut(..case.number(1)) {
        Some(buffer) => write!(out, "{}", Said(put_largest(buffer))),
        None => Ok(()),
    }
}
