// "Start: all ready, registers 0, counter at the entry, boxes empty, domain 1 active."
ghost use Rattle.std.specs.Prelude.{◌≡◌};
ghost use Rattle.model.specs.States.{at_entry, no_state, start};

use model::MOST;
use model::map::Map;
use model::state::{Context, State, Status};

// "active 0 and every context zero and halted"
pub fn no_state() -> State
    ensures { result ≡ no_state }
{
    State {
        active: 0,
        contexts: [Context::default(); MOST],
    }
}

fn at_entry(entry: u32) -> Context
    ensures { result ≡ at_entry entry }
{
    Context {
        counter: entry,
        status: Status::Ready,
        ..Context::default()
    }
}

pub fn start(m: Map) -> State
    ensures { result ≡ start m }
{
    let mut contexts = no_state().contexts;
    // A count past MOST has no more domains than MOST.
    let own = &m.domains[..usize::from(m.count).min(MOST)];
    // Tried: `contexts.iter_mut().zip(own)`. What the array holds after it is not told to a proof.
    for (i, d) in own.iter().enumerate() {
        contexts[i] = at_entry(d.entry);
    }
    State {
        active: 1,
        contexts,
    }
}
