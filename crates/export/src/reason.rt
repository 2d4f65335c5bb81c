// A status and a fault's reason as three words: which, and the number of a fault. include/arcovinda.h fixes the words, so these
// conversions are functions and no impls: C's layout is no part of crate model.
ghost use Rattle.std.specs.Prelude.{◌≡◌};
ghost use Rattle.export.specs.StateWords.{reason_words, status_words, status_of};

use crate::words::{high, low, number};
use model::state::{Reason, Status};

pub fn reason_words(r: Reason) -> [u32; 3]
    ensures { result ≡ reason_words r }
{
    let (kind, n) = match r {
        Reason::Fetch(a) => (3, a),
        Reason::Read(a) => (4, a),
        Reason::Write(a) => (5, a),
        Reason::Kind(b) => (6, u64::from(b)),
        Reason::Register(b) => (7, u64::from(b)),
        Reason::Channel(b) => (8, u64::from(b)),
    };
    [kind, low(n), high(n)]
}

pub fn status_words(s: Status) -> [u32; 3]
    ensures { result ≡ status_words s }
{
    match s {
        Status::Halted => [0, 0, 0],
        Status::Ready => [1, 0, 0],
        Status::Waiting => [2, 0, 0],
        Status::Faulted(r) => reason_words(r),
    }
}

// A word that names no status is read as halted.
#[tactic(auto, using(crate::specs::StateLaws::status_known, crate::specs::StateLaws::status_none))]
pub fn status(kind: u32, l: u32, h: u32) -> Status
    ensures { result ≡ status_of kind l h }
{
    let address = number(l, h);
    let byte = (l % 256) as u8;
    match kind {
        0 => Status::Halted,
        1 => Status::Ready,
        2 => Status::Waiting,
        3 => Status::Faulted(Reason::Fetch(address)),
        4 => Status::Faulted(Reason::Read(address)),
        5 => Status::Faulted(Reason::Write(address)),
        6 => Status::Faulted(Reason::Kind(byte)),
        7 => Status::Faulted(Reason::Register(byte)),
        8 => Status::Faulted(Reason::Channel(byte)),
        _ => Status::Halted,
    }
}
