// "Events".
use crate::refusal::Refusal;
use crate::state::Reason;

#[derive(Clone, Copy, PartialEq, Eq, Debug)]
pub enum Event {
    Step,
    Tick,
    WordIn(u8, u32),
}

#[derive(Clone, Copy, PartialEq, Eq, Debug)]
pub enum Answer {
    Idle,
    Ran(u8),
    Waits(u8),
    Halted(u8),
    Faulted(u8, Reason),
    Switched(u8),
    Taken(u8),
    Full(u8),
    NoDomain(u8),
}

// What stands at the front of a trace: an event and how many bytes it takes, or 11 or 12.
pub type EventRead = Result<(Event, usize), Refusal>;
