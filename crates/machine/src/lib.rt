// The machine: start, step, tick, word-in, one event, a trace, a batch, and the view of a domain's data. No call asks its caller to have
// looked first: each tests what it is given, in document 01's order, and refuses with the paper's number. Map, grid, state and memory stay four
// parameters: 01 asks for "an array of eight arrays passed by value beside the map struct", and these are the calls that docs/USING.md names, each
// here with its contract; what they share with each other and with the play is in the modules.
#![tactic(auto)]

mod ending;
mod happen;
mod reader;
mod trace;
mod verdict;

ghost use Rattle.std.specs.Prelude.{◌≡◌};
ghost use Rattle.model.specs.Events.{event_read};
ghost use Rattle.model.specs.Calls.{left, lent_verdict, view, starter, stepper, player, batcher};
ghost use Rattle.model.specs.declared.event.Event.{Event};

use crate::ending::ending;
use crate::happen::happen;
use crate::trace::play_on;
use crate::verdict::{lent_verdict, tested};
use model::MOST;
use model::call::{Batched, Played, Started, Stepped, Stop, Verdict};
use model::event::{Event, EventRead};
use model::map::Map;
use model::state::State;
use rights::acceptable;
use states::event::Happened;

// The node at its start, or why not: then no domain is active, and every context is zero and halted.
#[tactic(auto, unfolding(model::specs::Calls::starter))]
pub fn start(m: Map, g: [[bool; MOST]; MOST]) -> Started
    ensures { result ≡ starter m g }
{
    let verdict = acceptable(m, g);
    let state = match verdict {
        Ok(()) => states::start::start(m),
        Err(_) => states::start::no_state(),
    };
    Started { verdict, state }
}

// One event: its answer and the state after it, or a refusal with the state as it came and no byte set.
#[tactic(auto, unfolding(model::specs::Calls::stepper))]
pub fn event(m: Map, g: [[bool; MOST]; MOST], s: State, memory: &mut [u8], e: Event) -> Stepped
    ensures { left result memory.new ≡ stepper m g s memory.old e }
{
    match tested(m, g, s, memory) {
        Ok(node) => {
            let Happened { answer, state } = happen(&node, memory, e);
            Stepped {
                reply: Ok(answer),
                state,
            }
        }
        Err(r) => Stepped {
            reply: Err(r),
            state: s,
        },
    }
}

// One instruction of the active domain.
pub fn step(m: Map, g: [[bool; MOST]; MOST], s: State, memory: &mut [u8]) -> Stepped
    ensures { left result memory.new ≡ stepper m g s memory.old Event.Step }
{
    event(m, g, s, memory, Event::Step)
}

// "tick, a switch"
pub fn tick(m: Map, g: [[bool; MOST]; MOST], s: State, memory: &mut [u8]) -> Stepped
    ensures { left result memory.new ≡ stepper m g s memory.old Event.Tick }
{
    event(m, g, s, memory, Event::Tick)
}

// A word for domain b, from the device.
pub fn word_in(
    m: Map,
    g: [[bool; MOST]; MOST],
    s: State,
    memory: &mut [u8],
    b: u8,
    word: u32,
) -> Stepped
    ensures { left result memory.new ≡ stepper m g s memory.old (Event.WordIn b word) }
{
    event(m, g, s, memory, Event::WordIn(b, word))
}

// The event at the front of the bytes and how many it takes, or 11 or 12.
pub fn read_event(bytes: &[u8]) -> EventRead
    ensures { result ≡ event_read bytes.now }
{
    reader::event_at_front(bytes)
}

// The events of a trace, up to its end or its first broken record.
#[tactic(auto, unfolding(model::specs::Calls::player))]
pub fn play(m: Map, g: [[bool; MOST]; MOST], s: State, memory: &mut [u8], trace: &[u8]) -> Played
    ensures { left result memory.new ≡ player m g s memory.old trace.now }
{
    match tested(m, g, s, memory) {
        Ok(node) => play_on(node, memory, trace),
        Err(r) => Played {
            close: Err(Stop::Refused(r)),
            events: 0,
            state: s,
        },
    }
}

// As many steps as the limit, or fewer if the node becomes idle; how many were done is returned.
#[tactic(auto, unfolding(model::specs::Calls::batcher))]
pub fn batch(m: Map, g: [[bool; MOST]; MOST], s: State, memory: &mut [u8], limit: u64) -> Batched
    ensures { left result memory.new ≡ batcher m g s memory.old limit }
{
    match tested(m, g, s, memory) {
        Ok(node) => {
            let done = node.run(memory, limit);
            Batched {
                ending: Ok(ending(done.left)),
                steps: limit - done.left,
                state: done.state,
            }
        }
        Err(r) => Batched {
            ending: Err(r),
            steps: 0,
            state: s,
        },
    }
}

// Whether a view can be had: the companion call of `view`.
pub fn view_verdict(m: Map, g: [[bool; MOST]; MOST], memory: &[u8], d: u8) -> Verdict
    ensures { result ≡ lent_verdict m g memory.now d }
{
    lent_verdict(m, g, memory, d)
}

// The data sub-region of domain d as that part of the lent memory, and the empty part at its front where the companion call refuses.
#[tactic(auto, unfolding(model::specs::Calls::view))]
pub fn view(m: Map, g: [[bool; MOST]; MOST], memory: &[u8], d: u8) -> &[u8]
    ensures { result.now ≡ view m g memory.now d }
{
    match lent_verdict(m, g, memory, d) {
        Err(_) => &memory[..0],
        Ok(()) => {
            let data = m.domains[usize::from(d) - 1].data;
            &memory[data.begin as usize..data.end as usize]
        }
    }
}
