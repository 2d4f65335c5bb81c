// The writer's records, as bytes: a record's kind byte and its body, in the table's order.
ghost use Rattle.std.specs.Prelude.{◌≡◌, ◌++◌};
ghost use Rattle.model.specs.Sheet.{region_bytes, length_record, kernel_record, domain_record};

use model::map::{Domain, Map, Region};

fn region_bytes(r: Region) -> [u8; 8]
    ensures { result ≡ region_bytes r }
{
    let mut bytes = [0; 8];
    bytes[..4].copy_from_slice(&r.begin.to_le_bytes());
    bytes[4..].copy_from_slice(&r.end.to_le_bytes());
    bytes
}

// The length's record and the kernel's.
pub fn head(m: Map) -> [u8; 14]
    ensures { result ≡ length_record m.length ++ kernel_record m.kernel }
{
    let mut head = [1; 14];
    head[1..5].copy_from_slice(&m.length.to_le_bytes());
    head[5] = 2;
    head[6..].copy_from_slice(&region_bytes(m.kernel));
    head
}

pub fn domain_record(d: Domain) -> [u8; 21]
    ensures { result ≡ domain_record d }
{
    let mut record = [3; 21];
    record[1..9].copy_from_slice(&region_bytes(d.code));
    record[9..17].copy_from_slice(&region_bytes(d.data));
    record[17..].copy_from_slice(&d.entry.to_le_bytes());
    record
}
