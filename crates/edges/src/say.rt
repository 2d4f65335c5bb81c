// What is written to standard output, piece by piece, and the library's values in words.
use model::refusal::{Refusal, RefusedAt};
use std::fmt;

// Standard output. A piece that cannot be written is left out, and the next one is tried, so no piece fails.
#[derive(Drop)]
pub struct Out;

impl Out {
    // A piece that need not be text.
    pub fn bytes(&mut self, piece: &[u8]) {
        io::write_all(1, piece);
    }
}

impl fmt::Write for Out {
    fn write_str(&mut self, piece: &str) -> fmt::Result {
        self.bytes(piece.as_bytes());
        Ok(())
    }
}

#[derive(Clone, Copy)]
pub struct Said<T>(pub T);

// "its number"
impl fmt::Display for Said<Refusal> {
    fn fmt<W: fmt::Write>(&self, f: &mut fmt::Formatter<W>) -> fmt::Result {
        write!(f, "{}", u32::from(self.0))
    }
}

// "as '12 at 7'"
impl fmt::Display for Said<RefusedAt> {
    fn fmt<W: fmt::Write>(&self, f: &mut fmt::Formatter<W>) -> fmt::Result {
        let RefusedAt { refusal, at } = self.0;
        write!(f, "{} at {at}", Said(refusal))
    }
}

impl<T: Copy, E: Copy> fmt::Display for Said<Result<T, E>>
where
    Said<T>: fmt::Display,
    Said<E>: fmt::Display,
{
    fn fmt<W: fmt::Write>(&self, f: &mut fmt::Formatter<W>) -> fmt::Result {
        match self.0 {
            Ok(x) => Said(x).fmt(f),
            Err(e) => Said(e).fmt(f),
        }
    }
}

// A call that has nothing to give is told by a word of the case's own.
impl fmt::Display for Said<&'static str> {
    fn fmt<W: fmt::Write>(&self, f: &mut fmt::Formatter<W>) -> fmt::Result {
        f.write_str(self.0)
    }
}
