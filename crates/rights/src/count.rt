// N, "1 to 8 domains", where it was tested.
ghost use Rattle.std.specs.Prelude.{◌≡◌, ◌≤◌};
ghost use Rattle.model.specs.Map.{most, is_domain};

use crate::channel::is_domain;

#[derive(Clone, Copy, PartialEq, Eq, Debug)]
pub struct Count {
    pub n: u8,
    ghost few: { n ≤ most },
}

impl Count {
    // Whether d is one of the domains.
    #[inline(always)]
    pub fn has(self, d: u8) -> bool
        ensures { result ≡ is_domain self.n d }
    {
        is_domain(self.n, d)
    }
}
