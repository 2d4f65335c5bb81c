// A state as 121 words: active, then 15 a context. Functions and no `From`: C's layout is no part of crate model.
ghost use Rattle.std.specs.Prelude.{◌≡◌, ◌<◌, [], length, get_or};
ghost use Rattle.model.specs.States.{missing};
ghost use Rattle.export.specs.StateWords.{context_from, context_words, unpacked, packed, state_of};

use crate::context::{context, context_words};
use model::MOST;
use model::state::{Context, State};
use std::array::from_fn;

fn unpacked(words: &[u32; 121]) -> State
    ensures { result ≡ unpacked words.now }
{
    let (contexts, _) = words[1..].as_chunks::<15>();
    State {
        active: (words[0] % 256) as u8,
        contexts: from_fn(
            |i: usize| -> Context
                requires { i < length contexts.now }
                ensures { result ≡ context_from (get_or contexts.entry.now i []) 0 }
            { context(contexts[i]) },
        ),
    }
}

pub fn packed(s: State) -> [u32; 121]
    ensures { result ≡ packed s }
{
    let contexts: [[u32; 15]; MOST] = from_fn(
        |i: usize| -> [u32; 15]
            requires { i < 8 }
            ensures { result ≡ context_words (get_or s.contexts i missing) }
        { context_words(s.contexts[i]) },
    );
    let mut words = [0; 121];
    words[0] = u32::from(s.active);
    words[1..].copy_from_slice(contexts.as_flattened());
    words
}

// Words that no state is written as give a state with active 255, which is well formed for no map.
pub fn state_of(words: &[u32; 121]) -> State
    ensures { result ≡ state_of words.now }
{
    let s = unpacked(words);
    if packed(s) == *words {
        s
    } else {
        State { active: 255, ..s }
    }
}
