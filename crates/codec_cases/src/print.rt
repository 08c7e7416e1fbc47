// Answers in print, piece by piece: each text and each number of a format is a write of its own.
use decoder::{Changes, Decoded, Decoding};
use refusals::Refusal;
use std::fmt;
use std::fmt::{InlineText, Write};

// The stream that answers are written to, by POSIX's number.
const STDOUT_FILENO: i32 = 1;

// Standard output, with no buffer. A write that fails is passed over, and the pieces after it are still written.
#[derive(Drop)]
struct Stdout;

impl fmt::Write for Stdout {
    fn write_str(&mut self, s: &str) -> fmt::Result {
        io::write_all(STDOUT_FILENO, s.as_bytes());
        Ok(())
    }
}

// A line of the answers.
pub(crate) fn print_line<D: fmt::Display + Drop>(line: D) {
    let _ = writeln!(Stdout, "{line}");
}

// What an output holds before a call.
pub(crate) const FILL: u8 = 170;

fn is_untouched(s: &[u8]) -> bool {
    s.iter().all(|x| *x == FILL)
}

// The digits of a word, of at most 128 symbols, as one piece.
#[derive(Drop)]
struct Digits<'a>(&'a [u8]);

impl fmt::Display for Digits<'_> {
    fn fmt<W: fmt::Write>(&self, f: &mut fmt::Formatter<W>) -> fmt::Result {
        let mut text = InlineText::<128>::new();
        for x in self.0 {
            let _ = text.write_char(if *x < 10 { char::from(b'0' + *x) } else { '?' });
        }
        f.write_str(text.as_str())
    }
}

// An error with its sign; 0 has none.
#[derive(Drop)]
struct Signed(i16);

impl fmt::Display for Signed {
    fn fmt<W: fmt::Write>(&self, f: &mut fmt::Formatter<W>) -> fmt::Result {
        let error = self.0;
        if error == 0 {
            write!(f, "0")
        } else {
            write!(f, "{error:+}")
        }
    }
}

// A refusal; one that changed a byte of an output begins with X.
#[derive(Drop)]
struct Refused {
    refusal: Refusal,
    is_kept: bool,
}

impl fmt::Display for Refused {
    fn fmt<W: fmt::Write>(&self, f: &mut fmt::Formatter<W>) -> fmt::Result {
        let letter = if self.is_kept { "R " } else { "X " };
        write!(f, "{letter}{}", u8::from(self.refusal))
    }
}

// What encode or convert answered: the word in the output, or the refusal.
#[derive(Drop)]
pub(crate) struct Written<'a> {
    pub(crate) answer: Result<(), Refusal>,
    pub(crate) out: &'a [u8],
}

impl fmt::Display for Written<'_> {
    fn fmt<W: fmt::Write>(&self, f: &mut fmt::Formatter<W>) -> fmt::Result {
        match self.answer {
            Ok(()) => write!(f, "{}", Digits(self.out)),
            Err(refusal) => {
                let is_kept = is_untouched(self.out);
                write!(f, "{}", Refused { refusal, is_kept })
            }
        }
    }
}

// What a word was read as. The letters M and F are pieces by themselves.
#[derive(Drop)]
struct Found(Decoded);

impl fmt::Display for Found {
    fn fmt<W: fmt::Write>(&self, f: &mut fmt::Formatter<W>) -> fmt::Result {
        match self.0 {
            Decoded::Clean => write!(f, "C 0 0 0"),
            Decoded::Corrected(c) => {
                write!(f, "M")?;
                write!(f, " {} {} {}", c.position, c.symbol, Signed(c.error))
            }
            Decoded::Filled(Changes::One(c)) => {
                write!(f, "F")?;
                write!(f, " {} {} {}", c.position, c.symbol, Signed(0))
            }
            Decoded::Filled(Changes::Two(c, d)) => {
                write!(f, "F")?;
                write!(f, " {} {}", c.position, c.symbol)?;
                write!(f, " {} {} {}", d.position, d.symbol, Signed(0))
            }
        }
    }
}

// What decode answered: the reading, the messages and how many positions were tried, or the refusal. An unreadable word has
// that count too, which is left out where an output was changed.
#[derive(Drop)]
pub(crate) struct Reading<'a> {
    pub(crate) decoding: Decoding,
    pub(crate) first: &'a [u8],
    pub(crate) second: &'a [u8],
}

impl fmt::Display for Reading<'_> {
    fn fmt<W: fmt::Write>(&self, f: &mut fmt::Formatter<W>) -> fmt::Result {
        let tried = self.decoding.tried;
        match self.decoding.answer {
            Ok(decoded) => {
                write!(f, "{} {} ", Found(decoded), Digits(self.first))?;
                write!(f, "{} {tried}", Digits(self.second))
            }
            Err(refusal) => {
                let is_kept = is_untouched(self.first) && is_untouched(self.second);
                write!(f, "{}", Refused { refusal, is_kept })?;
                if is_kept && refusal == Refusal::Unreadable {
                    write!(f, " {tried}")?;
                }
                Ok(())
            }
        }
    }
}
