// A grid as 64 bytes, row by row. Functions and no `From`: C's layout is no part of crate model.
ghost use Rattle.std.specs.Prelude.{◌≡◌, ◌<◌, [], length, get_or};
ghost use Rattle.export.specs.MapWords.{row_at, grid_of, row_bytes, grid_bytes};

use model::MOST;
use std::array::from_fn;

fn row(bytes: [u8; 8]) -> [bool; MOST]
    ensures { result ≡ row_at bytes 0 }
{
    from_fn(|t| bytes[t] != 0)
}

pub fn grid_of(bytes: &[u8; 64]) -> [[bool; MOST]; MOST]
    ensures { result ≡ grid_of bytes.now }
{
    let (rows, _) = bytes.as_chunks::<8>();
    from_fn(
        |f: usize| -> [bool; MOST]
            requires { f < length rows.now }
            ensures { result ≡ row_at (get_or rows.entry.now f []) 0 }
        { row(rows[f]) },
    )
}

fn row_bytes(r: [bool; MOST]) -> [u8; 8]
    ensures { result ≡ row_bytes r }
{
    from_fn(|t| u8::from(r[t]))
}

pub fn grid_bytes(g: [[bool; MOST]; MOST]) -> [u8; 64]
    ensures { result ≡ grid_bytes g }
{
    let rows: [[u8; 8]; MOST] = from_fn(
        |f: usize| -> [u8; 8]
            requires { f < 8 }
            ensures { result ≡ row_bytes (get_or g f []) }
        { row_bytes(g[f]) },
    );
    let mut bytes = [0; 64];
    bytes.copy_from_slice(rows.as_flattened());
    bytes
}
