// Tests on a domain: what it may do, and whether it stands well in its map.
ghost use Rattle.std.specs.Prelude.{◌≡◌, take, drop};
ghost use Rattle.std.specs.List.{list_all};
ghost use Rattle.model.specs.Map.{most, nth, may};
ghost use Rattle.model.specs.Refusals.{counted, zero_domain, unused_zero, free_of, clear, domain_verdict, domains_verdict};

use crate::region::{inside, overlaps, within};
use crate::verdict::check;
use model::MOST;
use model::call::Verdict;
use model::map::{Access, Domain, Map, Region};
use model::refusal::Refusal;

// "may read an address in its code or data, write one in its data, fetch one from its code"
#[tactic(auto, unfolding(model::specs::Map::may))]
#[inline(always)]
pub fn may(d: Domain, k: Access, a: u64) -> bool
    ensures { result ≡ may d k a }
{
    match k {
        Access::Read => inside(d.code, a) | inside(d.data, a),
        Access::Write => inside(d.data, a),
        Access::Fetch => inside(d.code, a),
    }
}

// "1 to 8 domains"
pub fn counted(n: u8) -> bool
    ensures { result ≡ counted n }
{
    (1..=MOST).contains(&usize::from(n))
}

#[tactic(auto, unfolding(model::specs::Refusals::zero_domain))]
fn zero_domain(d: Domain) -> bool
    ensures { result ≡ zero_domain d }
{
    d == Domain::default()
}

// Whether each of the domains but the first n is zero.
fn zero_past(domains: &[Domain], n: usize) -> bool
    ensures { result ≡ list_all zero_domain (drop n domains.now) }
{
    domains.iter().skip(n).all(|&d| zero_domain(d))
}

// 2: "an unused map entry not all zero"
#[tactic(auto, using(crate::proofs::Walks::unused_walk))]
pub fn unused_zero(m: Map) -> bool
    ensures { result ≡ unused_zero m most }
{
    zero_past(&m.domains, usize::from(m.count))
}

fn free_of(r: Region, d: Domain) -> bool
    ensures { result ≡ free_of r d }
{
    !overlaps(r, d.code) & !overlaps(r, d.data)
}

fn free_of_first(r: Region, domains: &[Domain], i: usize) -> bool
    ensures { result ≡ list_all (free_of r) (take i domains.now) }
{
    domains.iter().take(i).all(|&d| free_of(r, d))
}

// r shares no address with the kernel, nor with one of the first i domains.
#[tactic(auto, using(crate::proofs::Walks::clear_walk))]
fn clear(m: &Map, r: Region, i: usize) -> bool
    ensures { result ≡ clear m.now r i }
{
    free_of_first(r, &m.domains, i) & !overlaps(r, m.kernel)
}

// 4, 5 and 6 for a domain that stands after the first i. The map is lent: a copy for each domain would cost as much as the tests.
#[tactic(auto, unfolding(model::specs::Refusals::domain_verdict))]
fn stands(m: &Map, i: usize, d: Domain) -> Verdict
    ensures { result ≡ domain_verdict m.now i d }
{
    check(within(m.length, d.code), Refusal::Bounds)?;
    check(within(m.length, d.data), Refusal::Bounds)?;
    check(inside(d.code, u64::from(d.entry)), Refusal::Entry)?;
    check(clear(m, d.code, i), Refusal::Overlap)?;
    check(
        clear(m, d.data, i) & !overlaps(d.data, d.code),
        Refusal::Overlap,
    )
}

pub fn domain_verdict(m: Map, i: usize, d: Domain) -> Verdict
    ensures { result ≡ domain_verdict m i d }
{
    stands(&m, i, d)
}

// A place past the array's end reads as a domain that is all zero, so that no caller has to have counted.
fn nth(m: &Map, i: usize) -> Domain
    ensures { result ≡ nth m.now i }
{
    m.domains.get(i).copied().unwrap_or_default()
}

// 4, 5 and 6 for each domain in turn.
pub fn domains_verdict(m: Map) -> Verdict
    ensures { result ≡ domains_verdict m 0 m.count }
{
    for i in 0..usize::from(m.count) {
        stands(&m, i, nth(&m, i))?;
    }
    Ok(())
}
