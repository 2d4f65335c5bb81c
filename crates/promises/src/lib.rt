// The promises are theorems over crate model's definitions; this crate has no code.
#![tactic(auto)]
