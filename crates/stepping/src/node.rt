// Steps of a node, one after the other.
ghost use Rattle.std.specs.Prelude.{◌≡◌};
ghost use Rattle.model.specs.SoundLaws.{Sound};
ghost use Rattle.model.specs.declared.event.Answer.{Answer};
ghost use Rattle.instructions.specs.Steps.{going, steps};

use crate::turn::perform;
use instructions::held::Held;
use model::MOST;
use model::event::Answer;
use model::map::Map;
use model::state::State;
use rights::count::Count;

// How many steps are left of the limit, the answer of the last one that was done, and the state.
#[derive(Clone, Copy)]
pub struct Done {
    pub left: u64,
    pub answer: Answer,
    pub state: State,
}

// A node that was tested.
#[derive(Clone, Copy)]
pub struct Node {
    pub map: Map,
    pub grid: [[bool; MOST]; MOST],
    pub state: State,
    ghost sound: { Sound map.count state },
}

impl Node {
    // Stretch after stretch, until the limit is spent or the node is idle. No `for`: how many steps a stretch takes is told by it.
    pub fn run(&self, memory: &mut [u8], limit: u64) -> Done
        ensures { going result.left result.answer result.state memory.new
            ≡ steps self.now.map self.now.grid self.now.state memory.old Answer.Idle limit }
    {
        let count = Count { n: self.map.count };
        let mut t = self.state;
        let mut left = limit;
        let mut answer = Answer::Idle;
        while 0 < left && t.active != 0 {
            let place = usize::from(t.active) - 1;
            let held = Held {
                own: self.map.domains[place],
                count,
                row: self.grid[place],
            };
            let c = &mut t.contexts[place];
            let ran = held.stretch(c.counter, &mut c.registers, memory, left);
            c.counter = ran.counter;
            left = ran.left;
            answer = perform(count, &mut t, ran.went);
        }
        Done {
            left,
            answer,
            state: t,
        }
    }
}
