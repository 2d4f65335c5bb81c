// A record's values, from the bytes of its body. Each part lies in its array, as the check of each `unwrap` shows.
ghost use Rattle.std.specs.Prelude.{◌≡◌};
ghost use Rattle.model.specs.Sheet.{region_of, domain_of};

use model::map::{Domain, Region};

pub fn region_of(b: &[u8; 8]) -> Region
    ensures { result ≡ region_of b.now 0 }
{
    Region {
        begin: u32::from_le_bytes(*b.first_chunk().unwrap()),
        end: u32::from_le_bytes(*b.last_chunk().unwrap()),
    }
}

pub fn domain_of(b: &[u8; 20]) -> Domain
    ensures { result ≡ domain_of b.now }
{
    Domain {
        code: region_of(b.first_chunk().unwrap()),
        data: region_of(b[8..].first_chunk().unwrap()),
        entry: u32::from_le_bytes(*b.last_chunk().unwrap()),
    }
}
