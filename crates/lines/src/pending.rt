// Putting pending bytes out.
ghost use Rattle.std.specs.Prelude.{◌≡◌, List, ℕ, [], min, length, take, drop};
ghost use Rattle.lines_theory.specs.Line.{line_answer};
ghost use Rattle.lines_theory.specs.Feed.{is_empty, overwritten};

use answers::AnswerBuffer;
use std::marker::Model;

// The answer to the last line, of which the bytes from one index to another are not put out yet. Contracts see these bytes.
#[derive(Drop)]
pub(crate) struct Pending {
    answer: AnswerBuffer,
    from: usize,
    to: usize,
}

impl Model for Pending {
    ghost Value = { List ℕ };

    ghost view = { λ p. drop p.from (take p.to p.answer) };
}

impl Pending {
    pub(crate) fn none() -> Self
        ensures { result ≡ [] }
    {
        Pending {
            answer: [0; 128],
            from: 0,
            to: 0,
        }
    }

    // The bytes not put out yet: indices past the array, or out of order, mean what the nearest ones mean.
    fn bytes(&self) -> &[u8]
        ensures { result.now ≡ self.now }
    {
        let to = self.to.min(128);
        &self.answer[self.from.min(to)..to]
    }

    pub(crate) fn is_empty(&self) -> bool
        ensures { result ≡ is_empty self.now }
    {
        self.bytes().is_empty()
    }

    // The answer to a line, in place of what was pending.
    pub(crate) fn answer(&mut self, line: &[u8])
        ensures { self.new ≡ line_answer line.now }
    {
        self.to = answers::answer(line, &mut self.answer);
        self.from = 0;
    }

    // Puts out as many bytes as the output has room for.
    pub(crate) fn emit(&mut self, output: &mut [u8]) -> usize
        ensures count { result ≡ min (length self.old) (length output.old) }
        ensures left { self.new ≡ drop result self.old }
        ensures output { output.new ≡ overwritten (take result self.old) output.old }
    {
        let bytes = self.bytes();
        let n = bytes.len().min(output.len());
        output[..n].copy_from_slice(&bytes[..n]);
        self.from += n;
        n
    }
}
