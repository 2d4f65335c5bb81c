// How a batch that was not refused ends.
ghost use Rattle.std.specs.Prelude.{◌≡◌, eqb, if◌then◌else◌};
ghost use Rattle.model.specs.declared.call.Ending.{Ending};

use model::call::Ending;

// ""spent" if that equals the limit, else "idle"": nothing is left of the limit.
pub fn ending(left: u64) -> Ending
    ensures { result ≡ (if eqb left 0 then Ending.Spent else Ending.Idle) }
{
    if left == 0 {
        Ending::Spent
    } else {
        Ending::Idle
    }
}
