// The records of kinds 4 and 5: "any number of 4 in rising order of (from, to), one 5, nothing after". The offset stands beside
// the bytes: `channels` counts it for the refusal, and the contracts are said of the whole sheet.
ghost use Rattle.std.specs.Prelude.{◌≡◌, ◌<◌, length, get_or, drop};
ghost use Rattle.model.specs.Sheet.{channels_read};
ghost use Rattle.sheet.specs.Resumed.{ReadsChannel, closed};

use crate::cursor::Cursor;
use model::MOST;
use model::map::Map;
use model::refusal::{Refusal, RefusedAt};
use rights::channel::is_channel;
use rights::verdict::check;

// "body present (1), then the values": the cells below p are passed.
fn channel_body(s: &[u8], at: usize, count: u8, p: usize) -> Result<Option<(usize, usize)>, Refusal>
    requires { (at < length s.now) × (get_or s.now at 0 ≡ 4) }
    ensures { ReadsChannel s.now at count p result }
{
    let &[f, t, ..] = &s[at + 1..] else {
        return Err(Refusal::Short);
    };
    check(is_channel(count, f, t), Refusal::Channel)?;
    let row = usize::from(f) - 1;
    let column = usize::from(t) - 1;
    check(p <= row * MOST + column, Refusal::Channel)?;
    Ok(Some((row, column)))
}

// The row and the column of the grid that a record of kind 4 marks; or none, where one of kind 5 stands.
fn channel_record(
    s: &[u8],
    at: usize,
    count: u8,
    p: usize,
) -> Result<Option<(usize, usize)>, Refusal>
    ensures { ReadsChannel s.now at count p result }
{
    match s.get(at) {
        Some(4) => channel_body(s, at, count, p),
        Some(5) => Ok(None),
        Some(_) => Err(Refusal::Kind),
        None => Err(Refusal::Short),
    }
}

// The records of kinds 4 and 5 from the cursor on, marked in the grid.
pub fn channels(s: &[u8], c: Cursor, g: &mut [[bool; MOST]; MOST]) -> Result<Map, RefusedAt>
    ensures { closed result g.new ≡ channels_read c.at c.map 0 g.old (drop c.at s.now) }
{
    let mut at = c.at;
    let mut p = 0;
    // No `for`: a record of kind 5 ends the loop, and no index is counted.
    while let Some((row, column)) = channel_record(s, at, c.map.count, p).map_err(
        |refusal| RefusedAt { refusal, at },
    )? {
        g[row][column] = true;
        p = row * MOST + column + 1;
        at += 3;
    }
    let after = at + 1;
    if after < s.len() {
        return Err(RefusedAt {
            refusal: Refusal::Trailing,
            at: after,
        });
    }
    Ok(c.map)
}
