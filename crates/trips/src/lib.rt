// Demand 2's two round trips, as programs over the two calls: "A sheet that is written reads back as the same map, one that is
// read writes back as the same bytes". Each contract joins the contracts of both calls with the law of the definitions.
#![tactic(auto)]

ghost use Rattle.trips.specs.Back.{ReadsBack, WritesBack};

use model::MOST;
use model::call::{Sheet, Writing};
use model::map::Map;

// Map and grid stay two parameters: the form that document 01 asks for (crates/machine/src/lib.rt).
// Written and read: where the writer writes, the reader finds the same map and the same grid.
pub fn write_read(
    m: Map,
    g: [[bool; MOST]; MOST],
    buffer: &mut [u8],
    grid: &mut [[bool; MOST]; MOST],
) -> Sheet
    ensures { ReadsBack m g buffer.old result grid.new }
{
    let n = sheet::write(m, g, buffer).unwrap_or(0);
    sheet::read(&buffer[..n], grid)
}

// Read and written: where the reader finds a whole sheet, the writer sets the same bytes.
pub fn read_write(s: &[u8], grid: &mut [[bool; MOST]; MOST], buffer: &mut [u8]) -> Writing
    ensures { WritesBack s.now buffer.old result buffer.new }
{
    let sheet = sheet::read(s, grid);
    sheet::write(sheet.map, *grid, buffer)
}
