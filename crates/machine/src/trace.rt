// "Playing a trace stops at its first broken record with 11 or 12, its offset and the events done, which stand."
ghost use Rattle.std.specs.Prelude.{◌≡◌};
ghost use Rattle.model.specs.Calls.{left};
ghost use Rattle.machine.specs.Playing.{closed, plays};

use crate::happen::happen;
use crate::reader::event_at_front;
use model::call::{Played, Stop};
use model::event::EventRead;
use model::refusal::RefusedAt;
use stepping::node::Node;

// 11 or 12, and the offset. The answer comes whole: document 01 asks for a let else, whose else branch has no name for the refusal.
fn broken(read: EventRead, at: usize) -> Result<(), Stop>
    ensures { result ≡ closed read at }
{
    match read {
        Ok(_) => Ok(()),
        Err(refusal) => Err(Stop::Broken(RefusedAt { refusal, at })),
    }
}

pub fn play_on(start: Node, memory: &mut [u8], trace: &[u8]) -> Played
    ensures { left result memory.new
        ≡ plays start.map start.grid trace.now 0 0 start.state memory.old }
{
    let Node {
        map,
        grid,
        mut state,
    } = start;
    let mut at = 0;
    let mut events = 0;
    // a record takes as many bytes as its kind says: no index is counted, and no iterator of the library goes so
    while at < trace.len() {
        let read = event_at_front(&trace[at..]);
        let Ok((e, n)) = read else {
            return Played {
                close: broken(read, at),
                events,
                state,
            };
        };
        let node = Node { map, grid, state };
        state = happen(&node, memory, e).state;
        at += n;
        events += 1;
    }
    Played {
        close: Ok(()),
        events,
        state,
    }
}
