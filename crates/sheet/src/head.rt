// The first two records: the memory length and the kernel.
ghost use Rattle.std.specs.Prelude.{◌≡◌};
ghost use Rattle.model.specs.Sheet.{sheet_read};
ghost use Rattle.sheet.specs.Resumed.{Opens, kernel_left, after_length, after_kernel};

use crate::number::region_of;
use model::map::Region;
use model::refusal::Refusal;
use rights::region::{sized, within};
use rights::verdict::check;

// "kind byte present (1), kind allowed (2), body present (1)": the body. The offset stands beside the bytes: `Opens` is said of the whole sheet.
fn one_record<const SIZE: usize>(s: &[u8], at: usize, kind: u8) -> Result<&[u8; SIZE], Refusal>
    ensures { Opens s.now at kind SIZE result }
{
    let k = *s.get(at).ok_or(Refusal::Short)?;
    check(k == kind, Refusal::Kind)?;
    s[at + 1..].first_chunk().ok_or(Refusal::Short)
}

// This and the next share `one_record`: what is left of each is its value and the test of it.
pub fn length_record(s: &[u8]) -> Result<u32, Refusal>
    ensures { after_length s.now result ≡ sheet_read s.now }
{
    let n = u32::from_le_bytes(*one_record(s, 0, 1)?);
    check(sized(n), Refusal::Length)?;
    Ok(n)
}

pub fn kernel_record(s: &[u8], n: u32) -> Result<Region, Refusal>
    ensures { after_kernel s.now n result ≡ kernel_left s.now n }
{
    let kernel = region_of(one_record(s, 5, 2)?);
    check(within(n, kernel), Refusal::Bounds)?;
    Ok(kernel)
}
