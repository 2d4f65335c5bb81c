// A domain's instructions, one after the other.
ghost use Rattle.std.specs.Prelude.{◌≡◌, true, slice_index};
ghost use Rattle.model.specs.Map.{inside};
ghost use Rattle.model.specs.Instructions.{plan};
ghost use Rattle.instructions.specs.Told.{held, went, Tells};
ghost use Rattle.instructions.specs.Steps.{Stretches};

use crate::byte::{byte, peek};
use crate::decoding::{decode, no_register};
use crate::held::Held;
use crate::went::{Ran, Went};
use model::instruction::Decoded;
use model::state::Reason;
use rights::region::inside;

impl Held {
    // "kind above 19, fetch of the body, registers above 7 in body order, then access or channel"
    #[inline(always)]
    fn known(
        &self,
        kind: u8,
        counter: u32,
        registers: &mut [u32; 8],
        memory: &mut [u8],
    ) -> Result<Went, Reason>
        requires { (kind ≡ slice_index memory.old counter) × (inside self.now.own.code counter ≡ true) }
        ensures { Tells (held self.now.own self.now.count.n self.now.row) plan
            registers.old counter memory.old (went result) registers.new memory.new }
    {
        let Some(Decoded { length, effect }) = decode(kind) else {
            return Err(Reason::Kind(kind));
        };
        let end = self.own.code.end;
        if end - counter <= length {
            return Err(Reason::Fetch(u64::from(end)));
        }
        let body = peek(memory, counter as usize + 1);
        if let Some(r) = no_register(kind, body) {
            return Err(Reason::Register(r));
        }
        self.work(effect, body, counter + 1 + length, registers, memory)
    }

    // "fetch of the kind byte", then the rest for each kind by itself: its tests and its effect are compiled for that kind alone, after
    // one jump: 01's form, "decoding matches the kind byte over twenty cases and ranges". Loads, stores and what is no kind are the last arm's.
    #[tactic(auto, unfolding(model::specs::Instructions::plan, model::specs::Instructions::carry, model::specs::Map::lowest, model::specs::Map::may))]
    #[inline(always)]
    fn one(&self, counter: u32, registers: &mut [u32; 8], memory: &mut [u8]) -> Result<Went, Reason>
        ensures { Tells (held self.now.own self.now.count.n self.now.row) plan
            registers.old counter memory.old (went result) registers.new memory.new }
    {
        let at = u64::from(counter);
        if !inside(self.own.code, at) {
            return Err(Reason::Fetch(at));
        }
        let kind = byte(memory, counter as usize);
        match kind {
            0 => self.known(0, counter, registers, memory),
            1 => self.known(1, counter, registers, memory),
            2 => self.known(2, counter, registers, memory),
            3 => self.known(3, counter, registers, memory),
            4 => self.known(4, counter, registers, memory),
            5 => self.known(5, counter, registers, memory),
            6 => self.known(6, counter, registers, memory),
            7 => self.known(7, counter, registers, memory),
            8 => self.known(8, counter, registers, memory),
            13 => self.known(13, counter, registers, memory),
            14 => self.known(14, counter, registers, memory),
            15 => self.known(15, counter, registers, memory),
            16 => self.known(16, counter, registers, memory),
            17 => self.known(17, counter, registers, memory),
            18 => self.known(18, counter, registers, memory),
            19 => self.known(19, counter, registers, memory),
            _ => self.known(kind, counter, registers, memory),
        }
    }

    // Until an instruction needs more than its own registers and the memory, or the limit is spent.
    pub fn stretch(
        &self,
        counter: u32,
        registers: &mut [u32; 8],
        memory: &mut [u8],
        limit: u64,
    ) -> Ran
        ensures { Stretches self.now.own self.now.count.n self.now.row registers.old counter memory.old limit
            result registers.new memory.new }
    {
        let mut at = counter;
        for left in (0..limit).rev() {
            match self.one(at, registers, memory) {
                Ok(Went::Moved(next)) => at = next,
                Ok(went) => return Ran {
                    left,
                    counter: at,
                    went,
                },
                Err(reason) => return Ran {
                    left,
                    counter: at,
                    went: Went::Faults(reason),
                },
            }
        }
        Ran {
            left: 0,
            counter: at,
            went: Went::Moved(at),
        }
    }
}
