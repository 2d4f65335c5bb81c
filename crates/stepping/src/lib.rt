// Steps of a node that was tested, one after the other, as many as a limit allows.
#![tactic(auto)]

pub mod node;
mod turn;
