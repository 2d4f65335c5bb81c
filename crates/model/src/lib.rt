// Document 01's things as plain values. What they mean is defined in specs/; no algorithm lives here.
#![tactic(auto)]

pub mod call;
pub mod event;
pub mod instruction;
pub mod map;
pub mod refusal;
pub mod state;

// "1 to 8 domains": the limit, stated once in the code. The definitions state it once too: `most` in specs/Map.antt.
pub const MOST: usize = 8;
