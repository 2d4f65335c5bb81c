// A case's map and grid. Fields 1 and 2 are a place and the numbers from there on that are not Case L's; field 3 is the grid's marks, each a
// pair of numbers. The places of a map: its length, the kernel's begin and end, the count, and then five for each domain, its code's begin and end, its
// data's begin and end, and its entry.
use crate::numbers::{Low, number};
use crate::table::Pieces;
use model::MOST;
use model::map::{Domain, Map, Region};

const PLACES: usize = 44;

// "memory 256, kernel 0-32, domain 1 code 32-64, data 64-96, entry 32, domain 2 code 96-128, data 128-160, entry 96"
const CASE_L: [u32; 14] = [256, 0, 32, 2, 32, 64, 64, 96, 32, 96, 128, 128, 160, 96];

fn domain(numbers: &[u32]) -> Domain {
    match *numbers {
        [begin, end, data_begin, data_end, entry] => Domain {
            code: Region { begin, end },
            data: Region {
                begin: data_begin,
                end: data_end,
            },
            entry,
        },
        _ => Domain::default(),
    }
}

// Case L's map with other numbers from a place on. One that is left out is Case L's.
pub fn map_of(from: usize, others: &[u8]) -> Map {
    let mut places = [0; PLACES];
    places[..14].copy_from_slice(&CASE_L);
    for (place, other) in places
        .iter_mut()
        .skip(from)
        .zip(others.split(|b| *b == b' '))
    {
        if !other.is_empty() {
            *place = Low::low(number(other));
        }
    }
    let [length, begin, end, count, ..] = places;
    let mut domains = [Domain::default(); MOST];
    for (d, numbers) in domains.iter_mut().zip(places[4..].chunks_exact(5)) {
        *d = domain(numbers);
    }
    Map {
        length,
        kernel: Region { begin, end },
        count: (count & 0xff) as u8,
        domains,
    }
}

pub fn map(case: Pieces<'_>) -> Map {
    map_of(case.number(1), case.text(2))
}

// The grid with a mark more. Two zeros are none.
pub fn marked(mut g: [[bool; MOST]; MOST], from: usize, to: usize) -> [[bool; MOST]; MOST] {
    if let (Some(row), Some(column)) = (from.checked_sub(1), to.checked_sub(1)) {
        g[row % MOST][column % MOST] = true;
    }
    g
}

// At most two marks.
pub fn grid(case: Pieces<'_>) -> [[bool; MOST]; MOST] {
    let pairs = case.numbers(3);
    let one = marked([[false; MOST]; MOST], pairs.number(0), pairs.number(1));
    marked(one, pairs.number(2), pairs.number(3))
}
