// An answer, a status and a box in words. What follows something else begins with its comma, so that it is one piece with it.
use crate::say::Said;
use model::event::Answer;
use model::state::{Context, Mailbox, Reason, State, Status};
use std::fmt;

// What a call answers in these cases. The others are told by the program's lines.
impl fmt::Display for Said<Answer> {
    fn fmt<W: fmt::Write>(&self, f: &mut fmt::Formatter<W>) -> fmt::Result {
        match self.0 {
            Answer::Idle => f.write_str("idle"),
            Answer::Ran(d) => write!(f, "ran {d}"),
            Answer::Switched(d) => write!(f, "switched {d}"),
            Answer::Taken(d) => write!(f, "taken {d}"),
            Answer::NoDomain(d) => write!(f, "no domain {d}"),
            _ => f.write_str("another answer"),
        }
    }
}

impl fmt::Display for Said<Reason> {
    fn fmt<W: fmt::Write>(&self, f: &mut fmt::Formatter<W>) -> fmt::Result {
        match self.0 {
            Reason::Fetch(a) => write!(f, ", faulted fetch {a}"),
            Reason::Read(a) => write!(f, ", faulted read {a}"),
            Reason::Write(a) => write!(f, ", faulted write {a}"),
            Reason::Kind(k) => write!(f, ", faulted kind {k}"),
            Reason::Register(r) => write!(f, ", faulted register {r}"),
            Reason::Channel(d) => write!(f, ", faulted channel {d}"),
        }
    }
}

impl fmt::Display for Said<Status> {
    fn fmt<W: fmt::Write>(&self, f: &mut fmt::Formatter<W>) -> fmt::Result {
        match self.0 {
            Status::Ready => f.write_str(", ready"),
            Status::Waiting => f.write_str(", waiting"),
            Status::Halted => f.write_str(", halted"),
            Status::Faulted(r) => Said(r).fmt(f),
        }
    }
}

impl fmt::Display for Said<Mailbox> {
    fn fmt<W: fmt::Write>(&self, f: &mut fmt::Formatter<W>) -> fmt::Result {
        let Mailbox { full, word, sender } = self.0;
        if full {
            write!(f, ", box {word} from {sender}")
        } else {
            f.write_str(", box empty")
        }
    }
}

impl fmt::Display for Said<Context> {
    fn fmt<W: fmt::Write>(&self, f: &mut fmt::Formatter<W>) -> fmt::Result {
        let Context {
            registers,
            counter,
            status,
            mailbox,
        } = self.0;
        write!(f, " at {counter}, registers")?;
        for r in registers {
            write!(f, " {r}")?;
        }
        write!(f, "{}{}", Said(status), Said(mailbox))
    }
}

// Domain d of a state. There is no domain 0, and none past the last.
#[derive(Clone, Copy)]
pub struct DomainOf(pub State, pub u8);

impl fmt::Display for DomainOf {
    fn fmt<W: fmt::Write>(&self, f: &mut fmt::Formatter<W>) -> fmt::Result {
        let d = self.1;
        match self.0.contexts.get(usize::from(d).wrapping_sub(1)) {
            Some(c) => write!(f, ", domain {d}{}", Said(*c)),
            None => Ok(()),
        }
    }
}
