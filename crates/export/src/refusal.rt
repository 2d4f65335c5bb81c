// 0 where nothing is refused: include/arcovinda.h fixes it.
ghost use Rattle.std.specs.Prelude.{◌≡◌};
ghost use Rattle.model.specs.Refusals.{verdict_number};

use lines::number::refusal_number;
use model::call::Verdict;

pub fn verdict_number(v: Verdict) -> u32
    ensures { result ≡ verdict_number v }
{
    match v {
        Ok(()) => 0,
        Err(r) => refusal_number(r),
    }
}
