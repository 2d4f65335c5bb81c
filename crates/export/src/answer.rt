// An answer as five words: kind, domain, reason, the reason's number. include/arcovinda.h fixes the kinds.
ghost use Rattle.std.specs.Prelude.{◌≡◌};
ghost use Rattle.export.specs.AnswerWords.{plain, faulted, answer_words};

use crate::reason::reason_words;
use model::event::Answer;
use model::state::Reason;

fn plain(kind: u32, d: u8) -> [u32; 5]
    ensures { result ≡ plain kind d }
{
    [kind, u32::from(d), 0, 0, 0]
}

fn faulted(d: u8, r: Reason) -> [u32; 5]
    ensures { result ≡ faulted d r }
{
    let [reason, low, high] = reason_words(r);
    [4, u32::from(d), reason, low, high]
}

#[tactic(auto, unfolding(crate::specs::AnswerWords::answer_words))]
pub fn answer_words(a: Answer) -> [u32; 5]
    ensures { result ≡ answer_words a }
{
    match a {
        Answer::Idle => plain(0, 0),
        Answer::Ran(d) => plain(1, d),
        Answer::Waits(d) => plain(2, d),
        Answer::Halted(d) => plain(3, d),
        Answer::Faulted(d, r) => faulted(d, r),
        Answer::Switched(d) => plain(5, d),
        Answer::Taken(d) => plain(6, d),
        Answer::Full(d) => plain(7, d),
        Answer::NoDomain(b) => plain(8, b),
    }
}
