// One test, and what is said where it fails.
ghost use Rattle.std.specs.Prelude.{◌≡◌};
ghost use Rattle.model.specs.Refusals.{check};

use model::call::Verdict;
use model::refusal::Refusal;

pub fn check(b: bool, r: Refusal) -> Verdict
    ensures { result ≡ check b r }
{
    if b { Ok(()) } else { Err(r) }
}
