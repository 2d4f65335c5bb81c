// "One kind byte, then the body": the body's length and the effect, and the registers that it names. The kind is a byte, since document 01 asks that
// "decoding matches the kind byte over twenty cases and ranges, giving body length and effect".
#![tactic(auto, unfolding(model::specs::Table::row_of, model::specs::Table::table))]

ghost use Rattle.std.specs.Prelude.{◌≡◌, [], ◌∷◌, nat_le, None, Some, if◌then◌else◌};
ghost use Rattle.model.specs.Table.{size, registers_of, row_of, decoded};
ghost use Rattle.instructions.specs.Suspect.{above};

use model::instruction::{Decoded, Effect};

#[inline(always)]
fn length_of(kind: u8) -> u32
    ensures { result ≡ size (row_of kind).form }
{
    match kind {
        1 => 5,
        2..=8 => 2,
        9..=12 => 3,
        13 => 2,
        14 => 3,
        15 => 1,
        16..=17 => 2,
        _ => 0,
    }
}

#[inline(always)]
fn effect_of(kind: u8) -> Option<Effect>
    ensures { result ≡ (if nat_le kind 19 then Some (row_of kind).effect else None) }
{
    Some(match kind {
        0 => Effect::Nothing,
        1 => Effect::Set,
        2 => Effect::Copy,
        3 => Effect::Add,
        4 => Effect::Subtract,
        5 => Effect::And,
        6 => Effect::Or,
        7 => Effect::Xor,
        8 => Effect::Less,
        9 => Effect::LoadByte,
        10 => Effect::LoadWord,
        11 => Effect::StoreByte,
        12 => Effect::StoreWord,
        13 => Effect::Jump,
        14 => Effect::JumpIf,
        15 => Effect::JumpTo,
        16 => Effect::Send,
        17 => Effect::Receive,
        18 => Effect::Advance,
        19 => Effect::Halt,
        _ => return None,
    })
}

// What a kind of the table comes to; a kind above 19 comes to nothing.
#[inline(always)]
pub fn decode(kind: u8) -> Option<Decoded>
    ensures { result ≡ (if nat_le kind 19 then Some (decoded kind) else None) }
{
    let effect = effect_of(kind)?;
    let length = length_of(kind);
    Some(Decoded { length, effect })
}

// A register byte that names no register.
#[inline(always)]
fn above(r: u8) -> Option<u8>
    ensures { result ≡ above (r ∷ []) }
{
    (7 < r).then_some(r)
}

// "registers above 7 in body order": the first, if there is one.
#[inline(always)]
pub fn no_register(kind: u8, body: [u8; 5]) -> Option<u8>
    ensures { result ≡ above (registers_of (row_of kind).form body) }
{
    let [r, s, ..] = body;
    match kind {
        1 | 14..=15 => above(r),
        2..=12 | 17 => above(r).or(above(s)),
        16 => above(s),
        _ => None,
    }
}
