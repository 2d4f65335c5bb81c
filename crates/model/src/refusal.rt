// "Refusal numbers": one case a row of the table, with the number of its first column.
#[derive(Clone, Copy, PartialEq, Eq, Debug)]
pub enum Refusal {
    Short = 1,
    Kind = 2,
    Length = 3,
    Bounds = 4,
    Entry = 5,
    Overlap = 6,
    Channel = 7,
    Trailing = 8,
    Memory = 9,
    Buffer = 10,
    EventKind = 11,
    EventShort = 12,
    Malformed = 13,
    NoDomain = 14,
}

impl From<Refusal> for u32 {
    ghost use Rattle.std.specs.Prelude.{◌≡◌};
    ghost use Rattle.model.specs.Refusals.{refusal_number};

    ghost from_gives = { λ r n. n ≡ refusal_number r };

    fn from(r: Refusal) -> u32 {
        r as u32
    }
}

// A refusal and the offset of its record.
#[derive(Clone, Copy, PartialEq, Eq, Debug)]
pub struct RefusedAt {
    pub refusal: Refusal,
    pub at: usize,
}
