// The table's numbers, in decimal. A text with no number is 0.
use arrayvec::ArrayVec;

// A number with one more digit. A number that ends is followed by 0, and one that grows past 64 bits stays: `parse` would refuse both.
fn digit(n: u64, b: u8) -> u64 {
    match b.checked_sub(b'0') {
        Some(ones) => n
            .checked_mul(10)
            .and_then(|tens| tens.checked_add(u64::from(ones)))
            .unwrap_or(n),
        None => 0,
    }
}

pub fn number(text: &[u8]) -> u64 {
    text.iter().fold(0, |n, &b| digit(n, b))
}

// A number's lowest bits, as many as there are.
pub trait Low {
    fn low(n: u64) -> Self;
}

impl Low for u8 {
    fn low(n: u64) -> Self {
        (n & 0xff) as u8
    }
}

impl Low for u32 {
    fn low(n: u64) -> Self {
        (n & 0xffff_ffff) as u32
    }
}

impl Low for u64 {
    fn low(n: u64) -> Self {
        n
    }
}

impl Low for usize {
    fn low(n: u64) -> Self {
        n as usize
    }
}

// Gives numbers as bytes, in their order. A byte below '0' stands between two of them, so that two such bytes have a 0 between them.
fn each<F: FnMut(u8)>(text: &[u8], mut give: F)
    requires { F.IsAlwaysCallable give }
{
    let mut n = 0;
    for &b in text {
        if b < b'0' {
            give(Low::low(n));
        }
        n = digit(n, b);
    }
    if !text.is_empty() {
        give(Low::low(n));
    }
}

// The first N numbers as bytes.
pub fn bytes<const N: usize>(text: &[u8]) -> ArrayVec<u8, N> {
    let mut bytes = ArrayVec::new();
    each(text, |b| {
        let _ = bytes.try_push(b);
    });
    bytes
}

// Numbers laid into a buffer from a place on; what has no room is left out, so that no caller has to have measured.
// The offset stands beside the buffer: a part would be `get_mut(at..).unwrap_or_default()` at each call, which is no plainer.
pub fn put(to: &mut [u8], at: usize, text: &[u8]) {
    let mut places = to.iter_mut().skip(at);
    each(text, |b| {
        if let Some(place) = places.next() {
            *place = b;
        }
    });
}
