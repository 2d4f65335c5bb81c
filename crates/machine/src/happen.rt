// One event of a node that was tested. The node is lent: it is long, and a copy of it would lie on the stack.
ghost use Rattle.std.specs.Prelude.{◌≡◌};
ghost use Rattle.model.specs.Events.{gives, event};

use model::event::Event;
use rights::count::Count;
use states::event::{Happened, tick, word_in};
use stepping::node::Node;

#[tactic(auto, unfolding(model::specs::Events::event))]
pub fn happen(node: &Node, memory: &mut [u8], e: Event) -> Happened
    ensures { gives result.answer result.state memory.new
        ≡ event node.now.map node.now.grid node.now.state memory.old e }
{
    let count = Count { n: node.map.count };
    // A match on the enum's own cases: closures would be no plainer.
    match e {
        Event::Step => {
            let done = node.run(memory, 1);
            Happened {
                answer: done.answer,
                state: done.state,
            }
        }
        Event::Tick => tick(count, node.state),
        Event::WordIn(b, word) => word_in(count, node.state, b, word),
    }
}
