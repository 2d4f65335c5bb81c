// What the active domain's last instruction makes of the state.
ghost use Rattle.std.specs.Prelude.{◌≡◌, ◌≤◌, List, ℕ};
ghost use Rattle.model.specs.Map.{most};
ghost use Rattle.model.specs.States.{own, put_own, with_counter, with_status, switch};
ghost use Rattle.model.specs.Instructions.{take_into};
ghost use Rattle.model.specs.Events.{gives, perform};
ghost use Rattle.instructions.specs.Told.{deed};
ghost use Rattle.stepping.specs.Turn.{Reaches};

use instructions::register::set_register;
use instructions::went::Went;
use model::event::Answer;
use model::state::{Context, Mailbox, State, Status};
use rights::count::Count;
use states::receive::received;
use states::switch::switch;

// "receive word into r, then sender into s; the box becomes empty"
fn taken(c: Context, r: u8, s: u8, counter: u32) -> Context
    ensures { result ≡ take_into c (with_counter c counter) r s }
{
    let mut registers = c.registers;
    set_register(&mut registers, r, c.mailbox.word);
    set_register(&mut registers, s, u32::from(c.mailbox.sender));
    Context {
        registers,
        counter,
        mailbox: Mailbox::default(),
        ..c
    }
}

// The active domain gets another status, and the next ready one is active.
fn stop(count: Count, t: &mut State, status: Status)
    requires { (1 ≤ t.old.active) × (t.old.active ≤ most) }
    ensures { t.new ≡ switch count.n (put_own t.old (with_status (own t.old) status)) }
{
    t.contexts[usize::from(t.active) - 1].status = status;
    switch(count, t);
}

// The active domain's instruction went so: the answer, and the state after it. A word goes to one of the domains.
#[tactic(auto, unfolding(model::specs::Events::perform, model::specs::Events::sent))]
pub fn perform(count: Count, t: &mut State, went: Went) -> Answer
    requires active { (1 ≤ t.old.active) × (t.old.active ≤ most) }
    requires reaches { Reaches count.n went }
    ensures { (memory : List ℕ) → gives result t.new memory
        ≡ perform count.n t.old memory (deed (own t.old) (own t.old).registers went) }
{
    let d = t.active;
    let place = usize::from(d) - 1;
    match went {
        Went::Moved(counter) => {
            t.contexts[place].counter = counter;
            Answer::Ran(d)
        }
        Went::Sends(to, word, counter) => {
            let receiver = usize::from(to) - 1;
            let full = t.contexts[receiver].mailbox.full;
            let c = &mut t.contexts[place];
            c.counter = counter;
            c.registers[0] = u32::from(!full);
            if !full {
                t.contexts[receiver] = received(t.contexts[receiver], word, d);
            }
            Answer::Ran(d)
        }
        Went::Receives(r, s, counter) if t.contexts[place].mailbox.full => {
            t.contexts[place] = taken(t.contexts[place], r, s, counter);
            Answer::Ran(d)
        }
        Went::Receives(..) => {
            stop(count, t, Status::Waiting);
            Answer::Waits(d)
        }
        Went::Yields(counter) => {
            t.contexts[place].counter = counter;
            switch(count, t);
            Answer::Ran(d)
        }
        Went::Halts => {
            stop(count, t, Status::Halted);
            Answer::Halted(d)
        }
        Went::Faults(reason) => {
            stop(count, t, Status::Faulted(reason));
            Answer::Faulted(d, reason)
        }
    }
}
