// "The state".
use crate::MOST;

#[derive(Clone, Copy, PartialEq, Eq, Debug)]
pub enum Reason {
    Fetch(u64),
    Read(u64),
    Write(u64),
    Kind(u8),
    Register(u8),
    Channel(u8),
}

// Halted comes first: it is what a place past an array's end reads as.
#[derive(Clone, Copy, PartialEq, Eq, Debug, Default)]
pub enum Status {
    #[default]
    Halted,
    Ready,
    Waiting,
    Faulted(Reason),
}

// No Option: a caller may pass an empty box that holds a word, which `box_good` refuses with 13.
#[derive(Clone, Copy, PartialEq, Eq, Debug, Default)]
pub struct Mailbox {
    pub full: bool,
    pub word: u32,
    // "domain 0 means the device or nobody": no Option, a caller may pass any number.
    pub sender: u8,
}

#[derive(Clone, Copy, PartialEq, Eq, Debug, Default)]
pub struct Context {
    pub registers: [u32; 8],
    pub counter: u32,
    pub status: Status,
    pub mailbox: Mailbox,
}

#[derive(Clone, Copy, PartialEq, Eq, Debug, Default)]
pub struct State {
    // "active is 0 to N": no Option, since a caller may pass any number, and one above N is refused with 13.
    pub active: u8,
    pub contexts: [Context; MOST],
}
