// "Switching takes the first ready domain after the active one, going round and ending at itself; with none, active becomes 0."
// 0 is that state's own number, so it is no Option.
ghost use Rattle.std.specs.Prelude.{◌≡◌};
ghost use Rattle.model.specs.States.{after, first_ready, switch};

use model::state::{State, Status};
use rights::count::Count;

fn after(count: u8, d: u8) -> u8
    ensures { result ≡ after count d }
{
    if d < count { d + 1 } else { 1 }
}

#[tactic(auto, using(crate::proofs::Lists::first_turn), unfolding(model::specs::States::first_ready))]
fn first_ready(count: Count, s: &State, d: u8) -> u8
    ensures { result ≡ first_ready count.n s.now count.n d }
{
    let mut at = d;
    for _ in 0..count.n {
        at = after(count.n, at);
        if s.contexts[usize::from(at) - 1].status == Status::Ready {
            return at;
        }
    }
    0
}

#[tactic(auto, unfolding(model::specs::States::switch))]
pub fn switch(count: Count, s: &mut State)
    ensures { s.new ≡ switch count.n s.old }
{
    s.active = first_ready(count, s, s.active);
}
