// The public calls and the C functions once more, each under the contract that the theorems over all of them speak of: what is returned, with
// what was lent, is `value` of the call (crates/promises/specs/Public.antt), or `result_of` the function (crates/export/specs/Functions.antt). Each
// body is the call alone, so each proof is the call's own contract and nothing else: `call_coincides`, `which` and `unchanged`, and
// `function_coincides` and `function_unchanged`, are about what is returned, and not about definitions that look like it.
#![tactic(auto)]

pub mod calls;
pub mod functions;
