// A map as 44 words: length, kernel, count, then five a domain. Functions and no `From`: C's layout is no part of crate model.
ghost use Rattle.std.specs.Prelude.{◌≡◌, ◌<◌, [], length, get_or};
ghost use Rattle.model.specs.Map.{absent};
ghost use Rattle.export.specs.MapWords.{domain_from, map_of, domain_words, map_words};

use model::MOST;
use model::map::{Domain, Map, Region};
use std::array::from_fn;

fn domain(words: [u32; 5]) -> Domain
    ensures { result ≡ domain_from words 0 }
{
    Domain {
        code: Region {
            begin: words[0],
            end: words[1],
        },
        data: Region {
            begin: words[2],
            end: words[3],
        },
        entry: words[4],
    }
}

// A count that no byte holds is read as 255, which is refused just as well.
pub fn map_of(words: &[u32; 44]) -> Map
    ensures { result ≡ map_of words.now }
{
    let (domains, _) = words[4..].as_chunks::<5>();
    Map {
        length: words[0],
        kernel: Region {
            begin: words[1],
            end: words[2],
        },
        count: u8::try_from(words[3]).unwrap_or(u8::MAX),
        domains: from_fn(
            |i: usize| -> Domain
                requires { i < length domains.now }
                ensures { result ≡ domain_from (get_or domains.entry.now i []) 0 }
            { domain(domains[i]) },
        ),
    }
}

fn domain_words(d: Domain) -> [u32; 5]
    ensures { result ≡ domain_words d }
{
    [d.code.begin, d.code.end, d.data.begin, d.data.end, d.entry]
}

pub fn map_words(m: Map) -> [u32; 44]
    ensures { result ≡ map_words m }
{
    let head = [m.length, m.kernel.begin, m.kernel.end, u32::from(m.count)];
    let domains: [[u32; 5]; MOST] = from_fn(
        |i: usize| -> [u32; 5]
            requires { i < 8 }
            ensures { result ≡ domain_words (get_or m.domains i absent) }
        { domain_words(m.domains[i]) },
    );
    let mut words = [0; 44];
    words[..4].copy_from_slice(&head);
    words[4..].copy_from_slice(domains.as_flattened());
    words
}
