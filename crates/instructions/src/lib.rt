// The instructions of one domain: decoding, the access that the rule allows, and a stretch of them that ends where one needs more
// than its own registers and the memory. What a stretch calls is inlined into its loop, so that each kind is compiled by itself.
#![tactic(auto)]

mod access;
pub mod byte;
mod decoding;
pub mod held;
pub mod register;
pub mod stretch;
pub mod went;
mod work;
