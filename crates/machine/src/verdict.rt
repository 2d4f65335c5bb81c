// The tests that the calls make: the map and grid, then 9, 13, 14 "as far as each applies".
ghost use Rattle.std.specs.Prelude.{◌≡◌, IfOk, IfErr};
ghost use Rattle.model.specs.Calls.{as_long, lent_verdict, node_verdict};

use model::MOST;
use model::call::Verdict;
use model::map::Map;
use model::refusal::Refusal;
use model::state::State;
use rights::acceptable;
use rights::channel::is_domain;
use rights::count::Count;
use rights::verdict::check;
use states::good::well_formed;
use stepping::node::Node;

// 9: "lent memory not as long as the map says"
fn as_long(m: Map, memory: &[u8]) -> Verdict
    ensures { result ≡ as_long m memory.now }
{
    check(memory.len() == m.length as usize, Refusal::Memory)
}

// 13: "state not well formed"
#[tactic(auto, unfolding(model::specs::Calls::node_verdict))]
pub fn node_verdict(m: Map, g: [[bool; MOST]; MOST], s: State, memory: &[u8]) -> Verdict
    ensures { result ≡ node_verdict m g s memory.now }
{
    acceptable(m, g)?;
    as_long(m, memory)?;
    check(well_formed(Count { n: m.count }, s), Refusal::Malformed)
}

// The node that was tested, or the refusal.
pub fn tested(
    map: Map,
    grid: [[bool; MOST]; MOST],
    state: State,
    memory: &[u8],
) -> Result<Node, Refusal>
    ensures ok { IfOk result (λ n. (n.map ≡ map) × (n.grid ≡ grid) × (n.state ≡ state)
        × (node_verdict map grid state memory.now ≡ Ok tt)) }
    ensures err { IfErr result (λ r. node_verdict map grid state memory.now ≡ Err r) }
{
    node_verdict(map, grid, state, memory)?;
    Ok(Node { map, grid, state })
}

// 14: "domain not 1 to N"
#[tactic(auto, unfolding(model::specs::Calls::lent_verdict))]
pub fn lent_verdict(m: Map, g: [[bool; MOST]; MOST], memory: &[u8], d: u8) -> Verdict
    ensures { result ≡ lent_verdict m g memory.now d }
{
    acceptable(m, g)?;
    as_long(m, memory)?;
    check(is_domain(m.count, d), Refusal::NoDomain)
}
