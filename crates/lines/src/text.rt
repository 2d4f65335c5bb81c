// Bytes, words and numbers, one after the other in a lent buffer. What has no room is left out, so that no caller has to have measured.
ghost use Rattle.std.specs.Prelude.{◌≡◌, ◌++◌};
ghost use Rattle.model.specs.Program.{decimal};
ghost use Rattle.lines.specs.Pages.{onto};

// A lent buffer, and how many of its first bytes are set. No invariant: a page whose end lies past its buffer takes nothing more.
#[derive(Drop)]
pub struct Page<'a> {
    pub text: &'a mut [u8],
    pub end: usize,
}

impl Page<'_> {
    pub fn word(&mut self, w: &[u8])
        ensures { self.new ≡ onto self.old w.now }
    {
        if self.end < self.text.len() {
            let n = w.len().min(self.text.len() - self.end);
            let end = self.end + n;
            self.text[self.end..end].copy_from_slice(&w[..n]);
            self.end = end;
        }
    }

    #[tactic(auto, using(crate::specs::Decimal::decimal_printed))]
    pub fn number(&mut self, n: u64)
        ensures { self.new ≡ onto self.old (decimal n) }
    {
        let mut digits = itoa::Buffer::new();
        self.word(digits.format(n).as_bytes());
    }

    // A word and its number.
    #[tactic(auto, using(crate::specs::PagesLaws::onto_append))]
    pub fn named(&mut self, w: &[u8], n: u64)
        ensures { self.new ≡ onto self.old (w.now ++ decimal n) }
    {
        self.word(w);
        self.number(n);
    }
}
