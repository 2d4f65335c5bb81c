// The event reader, over any bytes.
ghost use Rattle.std.specs.Prelude.{◌≡◌};
ghost use Rattle.model.specs.Events.{word_event, event_read};

use model::event::{Event, EventRead};
use model::refusal::Refusal;

// "Kind 3, body of a domain byte and a 32-bit word"
fn word_event(bytes: &[u8]) -> EventRead
    ensures { result ≡ word_event bytes.now }
{
    let [_, b, w, x, y, z, ..] = bytes else {
        return Err(Refusal::EventShort);
    };
    let word = u32::from_le_bytes([*w, *x, *y, *z]);
    Ok((Event::WordIn(*b, word), 6))
}

// The event at the front of the bytes and how many it takes, or 11 or 12.
#[tactic(auto, unfolding(model::specs::Events::event_read))]
pub fn event_at_front(bytes: &[u8]) -> EventRead
    ensures { result ≡ event_read bytes.now }
{
    let Some(&kind) = bytes.first() else {
        return Err(Refusal::EventShort);
    };
    // The kind stays a byte: it is met here alone.
    match kind {
        1 => Ok((Event::Step, 1)),
        2 => Ok((Event::Tick, 1)),
        3 => word_event(bytes),
        _ => Err(Refusal::EventKind),
    }
}
