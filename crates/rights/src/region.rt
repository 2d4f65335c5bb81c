// Tests on a region alone.
ghost use Rattle.std.specs.Prelude.{◌≡◌};
ghost use Rattle.model.specs.Map.{inside, overlaps};
ghost use Rattle.model.specs.Refusals.{sized, within};

use model::map::Region;

// "half open, begin up to but without end": the address is a whole number, never reduced.
#[inline(always)]
pub fn inside(r: Region, a: u64) -> bool
    ensures { result ≡ inside r a }
{
    (u64::from(r.begin) <= a) & (a < u64::from(r.end))
}

// The two share an address. "An empty region overlaps nothing."
#[tactic(auto, unfolding(model::specs::Map::overlaps))]
pub fn overlaps(r: Region, q: Region) -> bool
    ensures { result ≡ overlaps r q }
{
    (r.begin < r.end) & (q.begin < q.end) & (r.begin < q.end) & (q.begin < r.end)
}

// 3: "memory length not 256 to 65,536"
pub fn sized(n: u32) -> bool
    ensures { result ≡ sized n }
{
    (256..=65536).contains(&n)
}

// 4: "begin above end, or end above memory length"
pub fn within(n: u32, r: Region) -> bool
    ensures { result ≡ within n r }
{
    (r.begin <= r.end) & (r.end <= n)
}
