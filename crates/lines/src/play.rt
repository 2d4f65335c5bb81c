// The lines of a trace, event by event.
ghost use Rattle.std.specs.Prelude.{◌≡◌, length, Ok};
ghost use Rattle.model.specs.Refusals.{accepts};
ghost use Rattle.model.specs.Calls.{left};
ghost use Rattle.model.specs.Program.{of_trace};
ghost use Rattle.lines.specs.Pages.{told_onto};

use crate::text::Page;
use model::MOST;
use model::map::Map;

impl Page<'_> {
    // Map and grid stay two parameters: the form that document 01 asks for (crates/machine/src/lib.rt).
    pub fn trace_lines(&mut self, m: Map, g: [[bool; MOST]; MOST], memory: &mut [u8], trace: &[u8])
        requires { (accepts m g ≡ Ok tt) × (length memory.old ≡ m.length) }
        ensures { left self.new memory.new ≡ told_onto self.old (of_trace m g memory.old trace.now) }
    {
        let mut s = machine::start(m, g).state;
        let mut at = 0;
        let mut n = 0;
        // No `for`: how far the next event stands is told by the one before it, and a broken record's offset is printed.
        while at < trace.len() {
            let read = machine::read_event(&trace[at..]);
            let Ok((e, k)) = read else {
                self.broken_line(read, at);
                break;
            };
            let stepped = machine::event(m, g, s, memory, e);
            s = stepped.state;
            at += k;
            n += 1;
            self.reply_line(n, stepped.reply);
        }
        self.active_line(s.active);
    }
}
