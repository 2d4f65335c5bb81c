// The registers of one domain, lent. A number above 7 names none: it reads as 0 and sets nothing.
ghost use Rattle.std.specs.Prelude.{◌≡◌, slice_index, slice_set};
ghost use Rattle.instructions.specs.declared.went.Went.{Went};

use crate::went::Went;

#[inline(always)]
pub fn register(registers: &[u32; 8], r: u8) -> u32
    ensures { result ≡ slice_index registers.now r }
{
    registers.get(usize::from(r)).copied().unwrap_or(0)
}

#[inline(always)]
pub fn set_register(registers: &mut [u32; 8], r: u8, v: u32)
    ensures { registers.new ≡ slice_set registers.old r v }
{
    let r = usize::from(r);
    // Tried: `get_mut`. What the array holds after it is not told to a proof.
    if r < registers.len() {
        registers[r] = v;
    }
}

// r becomes v, and the counter goes on.
#[inline(always)]
pub fn becomes(registers: &mut [u32; 8], r: u8, v: u32, next: u32) -> Went
    ensures { (result ≡ Went.Moved next) × (registers.new ≡ slice_set registers.old r v) }
{
    set_register(registers, r, v);
    Went::Moved(next)
}
