// Runs encode, decode and convert on stored cases (tests/README.md: pairs, words, conversions). Pairs come on standard input, a line
// `edition profile rule first second length` each, and the answer is the word. Words are in the file `words`, a line
// `edition profile word first_length second_length` each, and the answer is `C 0 0 0 first second 0`,
// `M place symbol error first second tried`, or `F place symbol 0 first second 0` with a place and a symbol for each mark. In a word and in
// a message `?` is a mark. A refusal is `R number`, and `R 4 tried` for an unreadable word (02, T-08: how many places were tried).
// Conversions (02, T-04) are in the file `conversions`, a line `edition profile word length` each, and the answer is the word of the other
// edition, or `R number`.
#![tactic(auto)]

ghost use Rattle.std.specs.Prelude.{◌≤◌, length};

mod print;
mod text;

use print::{FILL, Reading, Written, print_line};
use std::fs::File;
use std::io::Read;
use text::{field, parse_number, parse_symbols};

// Standard error, by POSIX's number.
const STDERR_FILENO: i32 = 2;

// Encodes a pair, and prints the word or the refusal.
fn answer_pair(line: &[u8]) {
    let mut first = [0u8; 64];
    let first = parse_symbols(field(line, 3), &mut first);
    let mut second = [0u8; 64];
    let second = parse_symbols(field(line, 4), &mut second);
    let mut out = [FILL; 128];
    let n = parse_number(field(line, 5)).min(128);
    let out = &mut out[..n];
    let edition = parse_number(field(line, 0));
    let profile = parse_number(field(line, 1));
    let rule = parse_number(field(line, 2));
    let answer = encoder::encode(edition, profile, rule, first, second, out);
    print_line(Written { answer, out });
}

// Decodes a word, and prints the answer and the messages, or the refusal.
fn answer_word(line: &[u8]) {
    let mut word = [0u8; 128];
    let word = parse_symbols(field(line, 2), &mut word);
    let mut first = [FILL; 64];
    let k = parse_number(field(line, 3)).min(64);
    let first = &mut first[..k];
    let mut second = [FILL; 64];
    let l = parse_number(field(line, 4)).min(64);
    let second = &mut second[..l];
    let edition = parse_number(field(line, 0));
    let profile = parse_number(field(line, 1));
    let decoding = decoder::decode(edition, profile, word, first, second);
    let reading = Reading {
        decoding,
        first,
        second,
    };
    print_line(reading);
}

// Converts a word, and prints that of the other edition, or the refusal.
fn answer_conversion(line: &[u8]) {
    let mut word = [0u8; 128];
    let word = parse_symbols(field(line, 2), &mut word);
    let mut out = [FILL; 128];
    let l = parse_number(field(line, 3)).min(128);
    let out = &mut out[..l];
    let edition = parse_number(field(line, 0));
    let profile = parse_number(field(line, 1));
    let answer = converter::convert(edition, profile, word, out);
    print_line(Written { answer, out });
}

// Answers each line of a file.
fn answer_all<F: Fn(&[u8])>(input: &[u8], answer: F)
    requires { F.IsAlwaysCallable answer }
{
    for line in input.split_inclusive(|b| *b == b'\n') {
        answer(line.strip_suffix(b"\n").unwrap_or(line));
    }
}

// Reads until the buffer is full or the file ends, and answers how many bytes came. A read that fails is taken for the end.
fn read_full<R: Read>(file: &mut R, input: &mut [u8]) -> usize
    ensures { result ≤ length input.new }
{
    let mut done = 0;
    while done < input.len() {
        let n = file.read(&mut input[done..]).unwrap_or(0);
        if n == 0 {
            break;
        }
        done += n;
    }
    done
}

// Answers as much of a file as the buffer holds.
fn run_within<R: Read, F: Fn(&[u8])>(file: &mut R, input: &mut [u8], answer: F)
    requires { F.IsAlwaysCallable answer }
{
    let n = read_full(file, input);
    answer_all(&input[..n], answer);
}

// Answers a file of at most 2 MB, line by line; what is longer is cut off.
fn run<R: Read, F: Fn(&[u8])>(file: &mut R, answer: F)
    requires { F.IsAlwaysCallable answer }
{
    let mut input = [0u8; 2097152];
    run_within(file, &mut input, answer);
}

// Answers the file of that name. One that can't be opened is named on standard error.
fn run_file<F: Fn(&[u8])>(rt: &HostRuntime, name: &str, answer: F)
    requires { F.IsAlwaysCallable answer }
{
    match File::open(rt, name) {
        Ok(mut file) => run(&mut file, answer),
        Err(_) => {
            io::write_all(STDERR_FILENO, name.as_bytes());
            io::write_all(STDERR_FILENO, b": cannot be opened\n");
        }
    }
}

fn main(rt: HostRuntime) {
    run(&mut rt.stdin(), answer_pair);
    run_file(&rt, "words", answer_word);
    run_file(&rt, "conversions", answer_conversion);
}
