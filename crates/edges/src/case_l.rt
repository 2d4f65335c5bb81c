// Case L of document 01: its sheet, its map, its grid and its memory.
use crate::maps;
use crate::numbers::put;
use crate::table::Pieces;
use model::MOST;
use model::map::Map;

// "memory 256, kernel 0-32, domain 1 code 32-64, data 64-96, entry 32, domain 2 code 96-128, data 128-160, entry 96, channel 1 to 2
// (60 bytes)".
pub const SHEET: &[u8] =
    b"1 0 1 0 0 2 0 0 0 0 32 0 0 0 3 32 0 0 0 64 0 0 0 64 0 0 0 96 0 0 0 32 0 0 0 3 96 0 0 0 128 0 0 0 128 0 0 0 160 0 0 0 96 0 0 0 4 1 2 5";

// Zeros but for a program for domain 1 at its entry, field 1, and one for domain 2 at its own, field 2.
pub fn memory(case: Pieces<'_>) -> [u8; 256] {
    let mut memory = [0; 256];
    put(&mut memory, 32, case.text(1));
    put(&mut memory, 96, case.text(2));
    memory
}

pub fn map() -> Map {
    maps::map_of(0, b"")
}

pub fn grid() -> [[bool; MOST]; MOST] {
    maps::marked([[false; MOST]; MOST], 1, 2)
}
