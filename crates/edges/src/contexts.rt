// A state by its numbers: a domain is its status and a fault's number, then its box, 1 where it is full, the word and the sender, then its counter and
// R7. With no number a domain is zero and halted.
use crate::table::Pieces;
use model::MOST;
use model::state::{Context, Mailbox, Reason, State, Status};

// The codes are standard input's, which stays.
fn status(domain: Pieces<'_>) -> Status {
    match domain.number::<u64>(0) {
        0 => Status::Halted,
        1 => Status::Ready,
        2 => Status::Waiting,
        3 => Status::Faulted(Reason::Fetch(domain.number(1))),
        4 => Status::Faulted(Reason::Read(domain.number(1))),
        5 => Status::Faulted(Reason::Write(domain.number(1))),
        6 => Status::Faulted(Reason::Kind(domain.number(1))),
        7 => Status::Faulted(Reason::Register(domain.number(1))),
        _ => Status::Faulted(Reason::Channel(domain.number(1))),
    }
}

fn context(domain: Pieces<'_>) -> Context {
    Context {
        registers: [0, 0, 0, 0, 0, 0, 0, domain.number(6)],
        counter: domain.number(5),
        status: status(domain),
        mailbox: Mailbox {
            full: domain.number::<u64>(2) == 1,
            word: domain.number(3),
            sender: domain.number(4),
        },
    }
}

// Field 2 is the active domain, and fields 3 to 5 are the first three.
pub fn state(case: Pieces<'_>) -> State {
    let mut contexts = [Context::default(); MOST];
    for (c, k) in contexts.iter_mut().zip(3..6) {
        *c = context(case.numbers(k));
    }
    State {
        active: case.number(2),
        contexts,
    }
}
