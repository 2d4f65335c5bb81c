// The sheet's reader and writer: bytes to a map and its grid, and back. Map and grid stay two parameters: document 01 asks for "an array of
// eight arrays passed by value beside the map struct". A record's kind stays a byte: it is met once in the reader and once in the writer.
#![tactic(auto)]

mod channels;
mod cursor;
mod domains;
mod head;
mod number;
mod reader;
mod record;
mod writer;

ghost use Rattle.std.specs.Prelude.{◌≡◌};
ghost use Rattle.model.specs.Map.{no_map};
ghost use Rattle.model.specs.Calls.{left, reader, writer};

use crate::reader::records;
use crate::writer::{channel_count, put_sheet};
use model::MOST;
use model::call::{Sheet, Writing};
use model::map::Map;
use model::refusal::{Refusal, RefusedAt};
use rights::acceptable;
use rights::verdict::check;

// "On refusal the map is all zero".
fn refusal(refused: RefusedAt) -> Sheet
    ensures { result ≡ record { reading = Err refused; map = no_map } }
{
    Sheet {
        reading: Err(refused),
        map: Map::default(),
    }
}

// Reads a sheet: its map, with its channels in the lent grid. Refused, with the refusal and its record's offset: the map all zero and the
// grid all no.
pub fn read(s: &[u8], grid: &mut [[bool; MOST]; MOST]) -> Sheet
    ensures { left result grid.new ≡ reader s.now }
{
    match records(s, grid) {
        Ok(map) => Sheet {
            reading: Ok(()),
            map,
        },
        Err(refused) => {
            *grid = [[false; MOST]; MOST];
            refusal(refused)
        }
    }
}

// Writes the sheet of a map and its grid to the front of the buffer, and says how many bytes it has set; the rest of the buffer is left.
// Refused, with no byte set: 2 to 7 where the map and the grid are not acceptable, 10 where the buffer is shorter than the sheet.
pub fn write(m: Map, g: [[bool; MOST]; MOST], buffer: &mut [u8]) -> Writing
    ensures { left result buffer.new ≡ writer m g buffer.old }
{
    acceptable(m, g)?;
    let size = 15 + 21 * usize::from(m.count) + 3 * channel_count(g);
    check(size <= buffer.len(), Refusal::Buffer)?;
    Ok(put_sheet(buffer, m, g))
}
