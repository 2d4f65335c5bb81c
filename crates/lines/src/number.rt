// The table's first column, as the call that docs/USING.md names.
ghost use Rattle.std.specs.Prelude.{◌≡◌};
ghost use Rattle.model.specs.Refusals.{refusal_number};

use model::refusal::Refusal;

pub fn refusal_number(r: Refusal) -> u32
    ensures { result ≡ refusal_number r }
{
    u32::from(r)
}
