// Is a map with its grid acceptable; and the public question, whether a domain may read, write or fetch an address. Map and grid stay two
// parameters: document 01 asks for "an array of eight arrays passed by value beside the map struct".
#![tactic(auto)]

pub mod channel;
pub mod count;
pub mod domain;
pub mod region;
pub mod verdict;

ghost use Rattle.std.specs.Prelude.{◌≡◌};
ghost use Rattle.model.specs.Refusals.{map_verdict, accepts};
ghost use Rattle.model.specs.Calls.{question};

use crate::channel::{channels_good, is_domain};
use crate::domain::{counted, domains_verdict, may, unused_zero};
use crate::region::{sized, within};
use crate::verdict::check;
use model::MOST;
use model::call::{Permission, Verdict};
use model::map::{Access, Map};
use model::refusal::Refusal;

// "count and unused entries, 3, 4 for the kernel, then 4, 5, 6 for each domain in turn"
#[tactic(auto, unfolding(model::specs::Refusals::map_verdict))]
fn map_verdict(m: Map) -> Verdict
    ensures { result ≡ map_verdict m }
{
    check(counted(m.count), Refusal::Kind)?;
    check(unused_zero(m), Refusal::Kind)?;
    check(sized(m.length), Refusal::Length)?;
    check(within(m.length, m.kernel), Refusal::Bounds)?;
    domains_verdict(m)
}

// Whether a map and its grid are acceptable, or the first refusal among 2 to 7.
#[tactic(auto, unfolding(model::specs::Refusals::accepts))]
pub fn acceptable(m: Map, g: [[bool; MOST]; MOST]) -> Verdict
    ensures { result ≡ accepts m g }
{
    map_verdict(m)?;
    check(channels_good(m.count, g), Refusal::Channel)
}

// Whether domain d may read, write or fetch address a: yes, no, or a refusal of the map, or 14.
#[tactic(auto, unfolding(model::specs::Calls::question, model::specs::Calls::named))]
pub fn question(m: Map, g: [[bool; MOST]; MOST], d: u8, k: Access, a: u64) -> Permission
    ensures { result ≡ question m g d k a }
{
    acceptable(m, g)?;
    check(is_domain(m.count, d), Refusal::NoDomain)?;
    Ok(may(m.domains[usize::from(d) - 1], k, a))
}
