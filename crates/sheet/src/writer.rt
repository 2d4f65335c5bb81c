// The writer's sheet: its records are laid into a lent buffer, each past the one before. That a count is at most eight is a fact
// about the map that is given: a Count beside it would be no plainer, since it would have to be this map's.
ghost use Rattle.std.specs.Prelude.{◌≡◌, ◌+◌, ◌*◌, ◌≤◌, [], ◌∷◌, length};
ghost use Rattle.model.specs.Map.{most};
ghost use Rattle.model.specs.Sheet.{domain_records, channel_records, sheet_bytes};
ghost use Rattle.model.specs.GridLaws.{channel_count};
ghost use Rattle.sheet.specs.Laid.{Laid};

use crate::record::{domain_record, head};
use model::MOST;
use model::map::Map;

// How many cells are marked. No chain over the rows: it proves only what `count_by` finds in the list of all cells, and a second function
// and a law of the grid's shape would have to lead from there to the definition's cells.
pub fn channel_count(g: [[bool; MOST]; MOST]) -> usize
    ensures { (result ≡ channel_count g) × (result ≤ most * most) }
{
    let mut n = 0;
    for p in 0..MOST * MOST {
        n += usize::from(g[p / MOST][p % MOST]);
    }
    n
}

// Lays the bytes at an offset, and returns the offset past them.
// The offset stands beside the buffer: a struct of the two would be no plainer, since every function needs that its bytes
// fit, so that the length would stand in each contract again.
fn lay(buffer: &mut [u8], at: usize, bytes: &[u8]) -> usize
    requires { at + length bytes.now ≤ length buffer.old }
    ensures { Laid at bytes.now buffer.old result buffer.new }
{
    let next = at + bytes.len();
    buffer[at..next].copy_from_slice(bytes);
    next
}

fn put_domains(buffer: &mut [u8], at: usize, m: Map) -> usize
    requires { (m.count ≤ most) × (at + 21 * m.count ≤ length buffer.old) }
    ensures { Laid at (domain_records m 0 m.count) buffer.old result buffer.new }
{
    let mut next = at;
    for &d in &m.domains[..usize::from(m.count)] {
        next = lay(buffer, next, &domain_record(d));
    }
    next
}

// Cell by cell, as the definition counts them: two loops, over rows and marks, would be no plainer.
fn put_channels(buffer: &mut [u8], at: usize, g: [[bool; MOST]; MOST]) -> usize
    requires { at + length (channel_records g 0 (most * most)) ≤ length buffer.old }
    ensures { Laid at (channel_records g 0 (most * most)) buffer.old result buffer.new }
{
    let mut next = at;
    for p in 0..MOST * MOST {
        let row = p / MOST;
        let column = p % MOST;
        if g[row][column] {
            next = lay(buffer, next, &[4, (row + 1) as u8, (column + 1) as u8]);
        }
    }
    next
}

// The record that ends a sheet is its kind byte alone.
fn put_end(buffer: &mut [u8], at: usize) -> usize
    requires { at + 1 ≤ length buffer.old }
    ensures { Laid at (5 ∷ []) buffer.old result buffer.new }
{
    lay(buffer, at, &[5])
}

// The whole sheet, from the buffer's front.
pub fn put_sheet(buffer: &mut [u8], m: Map, g: [[bool; MOST]; MOST]) -> usize
    requires { (m.count ≤ most) × (15 + 21 * m.count + 3 * channel_count g ≤ length buffer.old) }
    ensures { Laid 0 (sheet_bytes m g) buffer.old result buffer.new }
{
    let at_domains = lay(buffer, 0, &head(m));
    let at_channels = put_domains(buffer, at_domains, m);
    let at_five = put_channels(buffer, at_channels, g);
    put_end(buffer, at_five)
}
