// How an instruction went, for its own domain. The last number of a case is the counter after it. A fault is a case
// here too, and not an error beside them: what ends a stretch is taken apart in one match.
use model::state::Reason;

#[derive(Clone, Copy)]
pub enum Went {
    Moved(u32),
    Sends(u8, u32, u32),
    Receives(u8, u8, u32),
    Yields(u32),
    Halts,
    Faults(Reason),
}

// A stretch: how many steps are left of the limit, where its last instruction stands, and how that one went.
#[derive(Clone, Copy)]
pub struct Ran {
    pub left: u64,
    pub counter: u32,
    pub went: Went,
}
