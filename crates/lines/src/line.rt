// "a line per event: event number, answer, domain, and for a fault the reason and its number; then the active domain"
ghost use Rattle.std.specs.Prelude.{◌≡◌};
ghost use Rattle.model.specs.Program.{reason_text, answer_text, event_line, refusal_line, refusal_at_line, active_line};
ghost use Rattle.lines.specs.Pages.{onto};
ghost use Rattle.lines.specs.Telling.{reply_line, broken_line};

use crate::number::refusal_number;
use crate::text::Page;
use model::call::Reply;
use model::event::{Answer, EventRead};
use model::refusal::{Refusal, RefusedAt};
use model::state::Reason;

// Tried: `Display`. It says what is written only where `fmt` returns Ok, and nothing says that it does; `transcript` promises its text always.
impl Page<'_> {
    #[tactic(auto, unfolding(model::specs::Program::reason_text))]
    fn reason(&mut self, r: Reason)
        ensures { self.new ≡ onto self.old (reason_text r) }
    {
        match r {
            Reason::Fetch(a) => self.named(b"fetch ", a),
            Reason::Read(a) => self.named(b"read ", a),
            Reason::Write(a) => self.named(b"write ", a),
            Reason::Kind(b) => self.named(b"kind ", u64::from(b)),
            Reason::Register(b) => self.named(b"register ", u64::from(b)),
            Reason::Channel(b) => self.named(b"channel ", u64::from(b)),
        }
    }

    #[tactic(auto, unfolding(model::specs::Program::answer_text))]
    fn answer(&mut self, a: Answer)
        ensures { self.new ≡ onto self.old (answer_text a) }
    {
        match a {
            Answer::Idle => self.word(b"idle"),
            Answer::Ran(d) => self.named(b"ran ", u64::from(d)),
            Answer::Waits(d) => self.named(b"waits ", u64::from(d)),
            Answer::Halted(d) => self.named(b"halted ", u64::from(d)),
            Answer::Faulted(d, r) => {
                self.named(b"faulted ", u64::from(d));
                self.word(b" ");
                self.reason(r);
            }
            Answer::Switched(d) => self.named(b"switched ", u64::from(d)),
            Answer::Taken(d) => self.named(b"taken ", u64::from(d)),
            Answer::Full(d) => self.named(b"full ", u64::from(d)),
            Answer::NoDomain(b) => self.named(b"no domain ", u64::from(b)),
        }
    }

    #[tactic(auto, using(crate::specs::PagesLaws::onto_append), unfolding(model::specs::Program::event_line))]
    fn event_line(&mut self, n: u64, a: Answer)
        ensures { self.new ≡ onto self.old (event_line n a) }
    {
        self.number(n);
        self.word(b" ");
        self.answer(a);
        self.word(b"\n");
    }

    #[tactic(auto, using(crate::specs::PagesLaws::onto_append), unfolding(model::specs::Program::refusal_line))]
    pub fn refusal_line(&mut self, r: Refusal)
        ensures { self.new ≡ onto self.old (refusal_line r) }
    {
        self.number(u64::from(refusal_number(r)));
        self.word(b"\n");
    }

    #[tactic(auto, using(crate::specs::PagesLaws::onto_append), unfolding(model::specs::Program::refusal_at_line))]
    pub fn refusal_at_line(&mut self, f: RefusedAt)
        ensures { self.new ≡ onto self.old (refusal_at_line f.refusal f.at) }
    {
        self.number(u64::from(refusal_number(f.refusal)));
        self.named(b" at ", f.at as u64);
        self.word(b"\n");
    }

    pub fn active_line(&mut self, d: u8)
        ensures { self.new ≡ onto self.old (active_line d) }
    {
        self.named(b"active ", u64::from(d));
        self.word(b"\n");
    }

    pub fn reply_line(&mut self, n: u64, reply: Reply)
        ensures { self.new ≡ onto self.old (reply_line n reply) }
    {
        match reply {
            Ok(a) => self.event_line(n, a),
            Err(r) => self.refusal_line(r),
        }
    }

    // "For a trace this line stands between the events and the active domain". The answer comes whole: the else branch of a let else has no name for
    // the refusal.
    #[tactic(auto, unfolding(crate::specs::Puts::puts))]
    pub fn broken_line(&mut self, read: EventRead, at: usize)
        ensures { self.new ≡ onto self.old (broken_line read at) }
    {
        if let Err(refusal) = read {
            self.refusal_at_line(RefusedAt { refusal, at });
        }
    }
}
