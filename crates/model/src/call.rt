// What the public calls return. Where document 01 has a map or a state stand beside a refusal, a struct holds the two.
use crate::event::Answer;
use crate::map::Map;
use crate::refusal::{Refusal, RefusedAt};
use crate::state::State;

// Is it acceptable; and the companion call of the view.
pub type Verdict = Result<(), Refusal>;

// The question: may domain d read, write or fetch address a.
pub type Permission = Result<bool, Refusal>;

// "On refusal the map is all zero": a map stands beside a refusal too.
#[derive(Clone, Copy, PartialEq, Eq, Debug)]
pub struct Sheet {
    pub reading: Result<(), RefusedAt>,
    pub map: Map,
}

// A sheet's writer: how many bytes it set.
pub type Writing = Result<usize, Refusal>;

// "a refused start gives active 0 and every context zero and halted": a state stands beside a refusal too.
#[derive(Clone, Copy, PartialEq, Eq, Debug)]
pub struct Started {
    pub verdict: Verdict,
    pub state: State,
}

// Step, tick, word-in and event.
pub type Reply = Result<Answer, Refusal>;

// "gives back state, map and grid as they came": here, in `Played` and in `Batched` the state stands beside a refusal too.
#[derive(Clone, Copy, PartialEq, Eq, Debug)]
pub struct Stepped {
    pub reply: Reply,
    pub state: State,
}

// Why a trace was not played to its end: 11 or 12 at its first broken record, or a refusal of the node before any event.
#[derive(Clone, Copy, PartialEq, Eq, Debug)]
pub enum Stop {
    Broken(RefusedAt),
    Refused(Refusal),
}

#[derive(Clone, Copy, PartialEq, Eq, Debug)]
pub struct Played {
    pub close: Result<(), Stop>,
    pub events: usize,
    pub state: State,
}

// How a batch that was not refused ends.
#[derive(Clone, Copy, PartialEq, Eq, Debug)]
pub enum Ending {
    Spent,
    Idle,
}

#[derive(Clone, Copy, PartialEq, Eq, Debug)]
pub struct Batched {
    pub ending: Result<Ending, Refusal>,
    pub steps: u64,
    pub state: State,
}
