// A 64-bit number is two words, the low one first: std converts bytes so, and has no call for words.
ghost use Rattle.std.specs.Prelude.{◌≡◌};
ghost use Rattle.export.specs.Words.{low, high, joined};

pub fn number(l: u32, h: u32) -> u64
    ensures { result ≡ joined l h }
{
    u64::from(h) << 32 | u64::from(l)
}

pub fn low(n: u64) -> u32
    ensures { result ≡ low n }
{
    (n & 0xffff_ffff) as u32
}

pub fn high(n: u64) -> u32
    ensures { result ≡ high n }
{
    (n >> 32) as u32
}
