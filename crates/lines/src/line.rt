// The line so far, and its answer.
ghost use Rattle.std.specs.Prelude.{◌≡◌, []};
ghost use Rattle.lines_theory.specs.Feed.{Partial, held, answer_to};
ghost use Rattle.lines.specs.Lines.{partial_of, extended_by, is_fresh};

use crate::pending::Pending;
use std::marker::Model;

// The line so far (01: "a zeroed array of 101 bytes holds the line"), and its length. Past 101 bytes only that it has run over is
// kept: it has no length then, and one past 101 would mean the same.
#[derive(Drop)]
pub(crate) struct Line {
    bytes: [u8; 101],
    len: Option<usize>,
}

impl Model for Line {
    ghost Value = { Partial };

    ghost view = { λ l. partial_of l.bytes l.len };
}

impl Line {
    pub(crate) fn empty() -> Self
        ensures { result ≡ held [] }
    {
        Line {
            bytes: [0; 101],
            len: Some(0),
        }
    }

    // Whether no byte of it has come.
    pub(crate) fn is_empty(&self) -> bool
        ensures { result ≡ is_fresh self.now }
    {
        self.len == Some(0)
    }

    // More bytes of the line.
    pub(crate) fn hold(&mut self, bytes: &[u8])
        ensures { self.new ≡ extended_by self.old bytes.now }
    {
        let len = match self.len {
            Some(len) if len <= 101 => len,
            _ => return,
        };
        if bytes.len() > 101 - len {
            self.len = None;
            return;
        }
        let end = len + bytes.len();
        self.bytes[len..end].copy_from_slice(bytes);
        self.len = Some(end);
    }

    // The line is at its end: its answer is pending, and the next line begins. One that has run over gets 9, as the empty line does.
    pub(crate) fn end(&mut self, pending: &mut Pending)
        ensures answer { pending.new ≡ answer_to self.old }
        ensures next { self.new ≡ held [] }
    {
        let len = match self.len {
            Some(len) if len <= 101 => len,
            _ => 0,
        };
        pending.answer(&self.bytes[..len]);
        self.len = Some(0);
    }
}
