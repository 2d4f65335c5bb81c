// Tests on channels.
ghost use Rattle.std.specs.Prelude.{◌≡◌, ◌*◌};
ghost use Rattle.model.specs.Map.{most, is_domain};
ghost use Rattle.model.specs.Refusals.{is_channel, channels_good};

use model::MOST;

// "Numbers count from 1; domain 0 means the device or nobody."
#[inline(always)]
pub fn is_domain(count: u8, d: u8) -> bool
    ensures { result ≡ is_domain count d }
{
    (1 <= d) & (d <= count)
}

// "channel end not 1 to N, from equal to to"
pub fn is_channel(count: u8, f: u8, t: u8) -> bool
    ensures { result ≡ is_channel count f t }
{
    is_domain(count, f) & is_domain(count, t) & (f != t)
}

// Each mark of the grid is a channel, cell by cell as the definition counts them: two loops, over rows and marks, would be no plainer.
pub fn channels_good(count: u8, g: [[bool; MOST]; MOST]) -> bool
    ensures { result ≡ channels_good count g 0 (most * most) }
{
    for p in 0..MOST * MOST {
        let row = p / MOST;
        let column = p % MOST;
        if g[row][column] & !is_channel(count, (row + 1) as u8, (column + 1) as u8) {
            return false;
        }
    }
    true
}
