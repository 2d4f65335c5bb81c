// The reader's records, front to back: the first two, the domains, the channels.
ghost use Rattle.std.specs.Prelude.{◌≡◌};
ghost use Rattle.model.specs.Sheet.{sheet_read};
ghost use Rattle.sheet.specs.Resumed.{after_front, closed};

use crate::channels::channels;
use crate::cursor::Cursor;
use crate::domains::domains;
use crate::head::{kernel_record, length_record};
use model::MOST;
use model::map::Map;
use model::refusal::RefusedAt;

// The records before the channels.
fn front(s: &[u8]) -> Result<Cursor, RefusedAt>
    ensures { after_front s.now result ≡ sheet_read s.now }
{
    let n = length_record(s).map_err(|refusal| RefusedAt { refusal, at: 0 })?;
    let kernel = kernel_record(s, n).map_err(|refusal| RefusedAt { refusal, at: 5 })?;
    domains(s, n, kernel)
}

// All records: the map, and the grid as far as it is marked.
pub fn records(s: &[u8], grid: &mut [[bool; MOST]; MOST]) -> Result<Map, RefusedAt>
    ensures { closed result grid.new ≡ sheet_read s.now }
{
    *grid = [[false; MOST]; MOST];
    channels(s, front(s)?, grid)
}
