// The bytes of memory. What lies past its end reads as 0 and is not set, so that no caller has to have looked.
ghost use Rattle.std.specs.Prelude.{◌≡◌, slice_index};
ghost use Rattle.std.proofs.lemmas.List.Edits.{sets};
ghost use Rattle.model.specs.Instructions.{peek};

use std::array;

#[inline(always)]
pub fn byte(memory: &[u8], a: usize) -> u8
    ensures { result ≡ slice_index memory.now a }
{
    memory.get(a).copied().unwrap_or(0)
}

// The N bytes from a on.
#[inline(always)]
pub fn peek<const N: usize>(memory: &[u8], a: usize) -> [u8; N]
    ensures { result ≡ peek memory.now a N }
{
    let rest = memory.get(a..).unwrap_or(&[]);
    array::from_fn(|i| byte(rest, i))
}

// The bytes from a on become these.
#[inline(always)]
pub fn put(memory: &mut [u8], a: usize, bytes: &[u8])
    ensures { memory.new ≡ sets memory.old a bytes.now }
{
    for (i, b) in bytes.iter().enumerate() {
        let at = a.saturating_add(i);
        // Tried: `get_mut`. What the slice holds after it is not told to a proof.
        if at < memory.len() {
            memory[at] = *b;
        }
    }
}
