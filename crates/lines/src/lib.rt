// The program's lines, in a lent buffer: everything that the program prints is made here, and what it is is proved.
#![tactic(auto)]

mod line;
pub mod number;
mod play;
mod text;

ghost use Rattle.std.specs.Prelude.{◌≡◌, Ok};
ghost use Rattle.model.specs.Refusals.{accepts};
ghost use Rattle.model.specs.Calls.{left};
ghost use Rattle.model.specs.Program.{transcript, shown};
ghost use Rattle.lines.specs.Telling.{of_map};
ghost use Rattle.lines.specs.Pages.{told_onto};

use crate::text::Page;
use model::MOST;
use model::map::Map;

impl Page<'_> {
    // Map and grid stay two parameters: the form that document 01 asks for (crates/machine/src/lib.rt).
    // 9 is told before the trace is looked at. The map has a domain 1, so the view's companion call refuses nothing else here.
    fn node_lines(&mut self, m: Map, g: [[bool; MOST]; MOST], memory: &mut [u8], trace: &[u8])
        requires { accepts m g ≡ Ok tt }
        ensures { left self.new memory.new ≡ told_onto self.old (of_map m g memory.old trace.now) }
    {
        match machine::view_verdict(m, g, memory, 1) {
            Ok(()) => self.trace_lines(m, g, memory, trace),
            Err(r) => self.refusal_line(r),
        }
    }

    fn lines(&mut self, sheet: &[u8], memory: &mut [u8], trace: &[u8])
        ensures { left self.new memory.new
            ≡ told_onto self.old (transcript sheet.now memory.old trace.now) }
    {
        let mut grid = [[false; MOST]; MOST];
        let found = sheet::read(sheet, &mut grid);
        match found.reading {
            Ok(()) => self.node_lines(found.map, grid, memory, trace),
            Err(f) => self.refusal_at_line(f),
        }
    }
}

// What the program prints for a sheet, a memory and a trace, as far as the buffer goes; how many bytes are set is returned.
pub fn transcript(sheet: &[u8], memory: &mut [u8], trace: &[u8], out: &mut [u8]) -> usize
    ensures { left (left result out.new) memory.new
        ≡ shown (transcript sheet.now memory.old trace.now) out.old }
{
    let mut page = Page { text: out, end: 0 };
    page.lines(sheet, memory, trace);
    page.end
}
