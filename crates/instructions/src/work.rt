// "then access or channel": the effect of an instruction that was fetched and whose registers are good.
ghost use Rattle.std.specs.Prelude.{◌≡◌, Ok, Err, if◌then◌else◌};
ghost use Rattle.model.specs.declared.state.Reason.{Reason};
ghost use Rattle.instructions.specs.Told.{linked, went, Works};
ghost use Rattle.instructions.specs.declared.went.Went.{Went};

use crate::access::{Address, load, store};
use crate::held::Held;
use crate::register::{becomes, register};
use crate::went::Went;
use model::instruction::Effect;
use model::state::Reason;

impl Held {
    // "faults as channel if d is not 1 to N or not granted"
    #[inline(always)]
    fn send(&self, t: u8, word: u32, next: u32) -> Result<Went, Reason>
        ensures { result ≡ (if linked self.now.count.n self.now.row t then Ok (Went.Sends t word next) else Err (Reason.Channel t)) }
    {
        if self.count.has(t) && self.row[usize::from(t) - 1] {
            Ok(Went::Sends(t, word, next))
        } else {
            Err(Reason::Channel(t))
        }
    }

    // "Every register that an instruction reads is read before it sets any."
    #[tactic(auto, unfolding(model::specs::Instructions::work, model::specs::Instructions::carry))]
    #[inline(always)]
    pub fn work(
        &self,
        effect: Effect,
        body: [u8; 5],
        next: u32,
        registers: &mut [u32; 8],
        memory: &mut [u8],
    ) -> Result<Went, Reason>
        ensures { Works effect self.now.own self.now.count.n self.now.row body next
            registers.old memory.old (went result) registers.new memory.new }
    {
        let [r, s, o, p, q] = body;
        let x = register(registers, r);
        let y = register(registers, s);
        let a = Address::new(y, o);
        // One match and no table of functions: an instruction is compiled into its own arm of `one`, where the effect is known.
        match effect {
            Effect::Nothing => Ok(Went::Moved(next)),
            Effect::Set => Ok(becomes(registers, r, u32::from_le_bytes([s, o, p, q]), next)),
            Effect::Copy => Ok(becomes(registers, r, y, next)),
            Effect::Add => Ok(becomes(registers, r, x.wrapping_add(y), next)),
            Effect::Subtract => Ok(becomes(registers, r, x.wrapping_sub(y), next)),
            Effect::And => Ok(becomes(registers, r, x & y, next)),
            Effect::Or => Ok(becomes(registers, r, x | y, next)),
            Effect::Xor => Ok(becomes(registers, r, x ^ y, next)),
            Effect::Less => Ok(becomes(registers, r, u32::from(x < y), next)),
            Effect::LoadByte => {
                let [b] = load::<1>(self.own, a, memory)?;
                Ok(becomes(registers, r, u32::from(b), next))
            }
            Effect::LoadWord => {
                let word = u32::from_le_bytes(load(self.own, a, memory)?);
                Ok(becomes(registers, r, word, next))
            }
            Effect::StoreByte => {
                store(self.own, a, &x.to_le_bytes()[..1], memory)?;
                Ok(Went::Moved(next))
            }
            Effect::StoreWord => {
                store(self.own, a, &x.to_le_bytes(), memory)?;
                Ok(Went::Moved(next))
            }
            Effect::Jump => Ok(Went::Moved(u32::from(u16::from_le_bytes([r, s])))),
            Effect::JumpIf if x == 0 => Ok(Went::Moved(next)),
            Effect::JumpIf => Ok(Went::Moved(u32::from(u16::from_le_bytes([s, o])))),
            Effect::JumpTo => Ok(Went::Moved(x)),
            Effect::Send => self.send(r, y, next),
            Effect::Receive => Ok(Went::Receives(r, s, next)),
            Effect::Advance => Ok(Went::Yields(next)),
            Effect::Halt => Ok(Went::Halts),
        }
    }
}
