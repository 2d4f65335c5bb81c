// Where the reader stands. The offset stands beside the bytes, in place of a slice of those that are left: a refusal reports it.
ghost use Rattle.std.specs.Prelude.{◌≤◌};
ghost use Rattle.model.specs.Map.{most};

use model::map::Map;

// The offset of the next record's kind byte, and the map as far as it is read: no more domains than it has entries.
#[derive(Clone, Copy, PartialEq, Eq, Debug)]
pub struct Cursor {
    pub at: usize,
    pub map: Map,
    ghost few: { map.count ≤ most },
}
