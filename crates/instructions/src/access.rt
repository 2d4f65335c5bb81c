// Loads and stores: "an access of several bytes is allowed when each byte is", "a faulted access reports the lowest denied address".
ghost use Rattle.std.specs.Prelude.{◌≡◌, ◌+◌, ◌-◌, ◌^◌, ◌<◌, ◌≤◌, length};
ghost use Rattle.model.specs.Map.{may, lowest};
ghost use Rattle.instructions.specs.Home.{home, covers};
ghost use Rattle.instructions.specs.Told.{lowest_of};
ghost use Rattle.instructions.specs.Loaded.{load, store};

use crate::byte::{peek, put};
use model::map::{Access, Domain, Region};
use model::state::Reason;
use rights::domain::may;

// "An address is register plus offset as a whole number, never reduced; it may exceed 32 bits and is reported in full."
#[derive(Clone, Copy)]
pub struct Address {
    pub at: u64,
    ghost whole: { at < 2 ^ 33 },
}

impl Address {
    #[inline(always)]
    pub fn new(base: u32, offset: u8) -> Address
        ensures { result.at ≡ base + offset }
    {
        Address {
            at: u64::from(base) + u64::from(offset),
        }
    }
}

// The region that accesses of a sort mostly lie in.
#[inline(always)]
fn home(own: Domain, k: Access) -> Region
    ensures { result ≡ home own k }
{
    match k {
        Access::Read | Access::Write => own.data,
        Access::Fetch => own.code,
    }
}

#[inline(always)]
fn covers(r: Region, a: u64, past: u64) -> bool
    ensures { result ≡ covers r a past }
{
    u64::from(r.begin) <= a && past <= u64::from(r.end)
}

// The lowest address from a up to `past` that is denied. An access inside its home needs no search.
#[inline(always)]
fn denied(own: Domain, k: Access, a: u64, past: u64) -> Option<u64>
    ensures { lowest_of result ≡ lowest (may own k) a (past - a) }
{
    if covers(home(own, k), a, past) {
        return None;
    }
    (a..past).find(|&x| !may(own, k, x))
}

// The N bytes from a on.
#[inline(always)]
pub fn load<const N: usize>(own: Domain, a: Address, memory: &[u8]) -> Result<[u8; N], Reason>
    requires { N ≤ 4 }
    ensures { result ≡ load own a.at N memory.now }
{
    if let Some(x) = denied(own, Access::Read, a.at, a.at + N as u64) {
        return Err(Reason::Read(x));
    }
    Ok(peek(memory, a.at as usize))
}

// The bytes from a on become these, or none does.
#[inline(always)]
pub fn store(own: Domain, a: Address, bytes: &[u8], memory: &mut [u8]) -> Result<(), Reason>
    requires { length bytes.now ≤ 4 }
    ensures { (result, memory.new) ≡ store own a.at bytes.now memory.old }
{
    if let Some(x) = denied(own, Access::Write, a.at, a.at + bytes.len() as u64) {
        return Err(Reason::Write(x));
    }
    put(memory, a.at as usize, bytes);
    Ok(())
}
