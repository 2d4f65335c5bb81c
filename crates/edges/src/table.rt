// A case's table: a line's fields with a semicolon between two of them, and a field's numbers with a space. They are bytes, of which any may come.
use crate::numbers::{Low, number};

#[derive(Clone, Copy)]
pub struct Pieces<'a> {
    text: &'a [u8],
    between: u8,
}

impl<'a> Pieces<'a> {
    pub fn fields(line: &'a [u8]) -> Self {
        Pieces {
            text: line,
            between: b';',
        }
    }

    // Field k's numbers.
    pub fn numbers(self, k: usize) -> Self {
        Pieces {
            text: self.text(k),
            between: b' ',
        }
    }

    // Piece k, from 0 on. "Fields at the end that are left out are empty".
    pub fn text(self, k: usize) -> &'a [u8] {
        self.text
            .split(|b| *b == self.between)
            .nth(k)
            .unwrap_or_default()
    }

    // "an empty number is 0"
    pub fn number<T: Low>(self, k: usize) -> T {
        T::low(number(self.text(k)))
    }
}
