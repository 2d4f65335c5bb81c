// The records of kind 3: "one to eight 3".
ghost use Rattle.std.specs.Prelude.{◌≡◌, ◌<◌, length, get_or, drop};
ghost use Rattle.model.specs.Map.{most};
ghost use Rattle.model.specs.Sheet.{beginning_map, with_domain, domains_read};
ghost use Rattle.sheet.specs.Resumed.{ReadsDomain, after_front};

use crate::cursor::Cursor;
use crate::number::domain_of;
use model::MOST;
use model::map::{Domain, Map, Region};
use model::refusal::{Refusal, RefusedAt};
use rights::domain::domain_verdict;

// "body present (1), then the values in number order"
fn domain_body(s: &[u8], c: Cursor) -> Result<Option<Domain>, Refusal>
    requires { (c.at < length s.now) × (get_or s.now c.at 0 ≡ 3) }
    ensures { ReadsDomain s.now c result }
{
    let Some(body) = s[c.at + 1..].first_chunk() else {
        return Err(Refusal::Short);
    };
    let d = domain_of(body);
    domain_verdict(c.map, usize::from(c.map.count), d)?;
    Ok(Some(d))
}

// A domain; or none, where another record stands after a domain, and channels may.
fn domain_record(s: &[u8], c: Cursor) -> Result<Option<Domain>, Refusal>
    ensures { ReadsDomain s.now c result }
{
    match s.get(c.at) {
        Some(3) => domain_body(s, c),
        Some(_) if c.map.count == 0 => Err(Refusal::Kind),
        Some(_) => Ok(None),
        None => Err(Refusal::Short),
    }
}

fn with_domain(mut m: Map, d: Domain) -> Map
    requires { m.count < most }
    ensures { result ≡ with_domain m d }
{
    m.domains[usize::from(m.count)] = d;
    m.count += 1;
    m
}

// The map before the first domain.
fn beginning_map(length: u32, kernel: Region) -> Map
    ensures { result ≡ beginning_map length kernel }
{
    Map {
        length,
        kernel,
        ..Map::default()
    }
}

// The records of kind 3, after the length and the kernel: where the channels follow.
pub fn domains(s: &[u8], n: u32, kernel: Region) -> Result<Cursor, RefusedAt>
    ensures { after_front s.now result ≡ domains_read most 14 (beginning_map n kernel) (drop 14 s.now) }
{
    let mut at = 14;
    let mut map = beginning_map(n, kernel);
    for _ in 0..MOST {
        let c = Cursor { at, map };
        match domain_record(s, c) {
            Ok(Some(d)) => {
                at += 21;
                map = with_domain(map, d);
            }
            Ok(None) => return Ok(c),
            Err(refusal) => return Err(RefusedAt { refusal, at }),
        }
    }
    Ok(Cursor { at, map })
}
