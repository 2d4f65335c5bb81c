// A context as 15 words: eight registers, counter, status, the status's number, the box. Functions and no `From`: C's layout is no part of crate model.
ghost use Rattle.std.specs.Prelude.{◌≡◌};
ghost use Rattle.export.specs.StateWords.{context_from, context_words};

use crate::reason::{status, status_words};
use model::state::{Context, Mailbox};

pub fn context(words: [u32; 15]) -> Context
    ensures { result ≡ context_from words 0 }
{
    let [.., counter, kind, low, high, full, word, sender] = words;
    Context {
        registers: *words.first_chunk().unwrap(),
        counter,
        status: status(kind, low, high),
        mailbox: Mailbox {
            full: full == 1,
            word,
            sender: (sender % 256) as u8,
        },
    }
}

#[tactic(auto, unfolding(crate::specs::StateWords::context_words))]
pub fn context_words(c: Context) -> [u32; 15]
    ensures { result ≡ context_words c }
{
    let [kind, low, high] = status_words(c.status);
    let full = u32::from(c.mailbox.full);
    let sender = u32::from(c.mailbox.sender);
    let mut words = [0; 15];
    words[..8].copy_from_slice(&c.registers);
    words[8..].copy_from_slice(&[c.counter, kind, low, high, full, c.mailbox.word, sender]);
    words
}
