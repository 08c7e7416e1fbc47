// The program boxlines (01: The line program). It reads standard input, however few bytes come at a time, and has written
// every answer that it can give before it reads again. At its end it says on standard error how many lines it answered,
// and whether a read or a write failed.
#![tactic(auto)]

ghost use Rattle.std.specs.Prelude.{◌<◌, ℕ, length, Option};
ghost use Rattle.lines.specs.States.{model_of};
ghost use Rattle.boxlines.specs.Turns.{AnswersPiece, AnswersEnd, AnswersRead};

use lines::State;
use std::io::{Read, Stdin};

// The streams that are written to, by POSIX's numbers.
const STDOUT_FILENO: i32 = 1;

const STDERR_FILENO: i32 = 2;

// What failed. None of the lines that came with it counts: so a line counts once the answers to all that came with it are
// written.
#[derive(Clone, Copy, PartialEq, Eq, Debug)]
enum Failure {
    Read,
    Write,
}

// The state after a piece of the input, and how many lines of it were answered.
#[derive(Drop)]
struct Answered {
    state: State,
    lines: usize,
}

// What comes of a read: there may be more input, or it has ended, and the last line is answered, if it was not ended.
#[derive(Drop)]
enum Next {
    More(Answered),
    Ended(usize),
}

// Writes what can be answered of a piece of the input, so that nothing is pending.
fn answer(start: State, input: &[u8], output: &mut [u8]) -> Result<Answered, Failure>
    requires { 0 < length output.old }
    ensures { AnswersPiece (model_of start) input.now result }
{
    let mut state = start;
    let mut at = 0;
    let mut lines = 0;
    loop {
        let stepped = lines::step(state, &input[at..], output);
        state = stepped.state;
        at += stepped.consumed;
        lines += stepped.answered;
        let produced = stepped.produced;
        if !io::write_all(STDOUT_FILENO, &output[..produced]) {
            return Err(Failure::Write);
        }
        if produced < output.len() {
            return Ok(Answered { state, lines });
        }
    }
}

// Writes what is still to come at the end of the input, and says how many lines that answered.
fn finish(start: State, output: &mut [u8]) -> Result<usize, Failure>
    requires { 0 < length output.old }
    ensures { AnswersEnd (model_of start) result }
{
    let mut state = start;
    let mut lines = 0;
    loop {
        let finished = lines::finish(state, output);
        state = finished.state;
        lines += finished.answered;
        let produced = finished.produced;
        if !io::write_all(STDOUT_FILENO, &output[..produced]) {
            return Err(Failure::Write);
        }
        if finished.done {
            return Ok(lines);
        }
    }
}

// What comes of a read that got so many bytes, or failed. A failed one is not the end of the input: what was answered has been
// written, and a line that is not ended gets no answer.
fn proceed(
    state: State,
    got: Option<usize>,
    input: &[u8],
    output: &mut [u8],
) -> Result<Next, Failure>
    requires { 0 < length output.old }
    ensures { AnswersRead (model_of state) got input.now result }
{
    let Some(n) = got else {
        return Err(Failure::Read);
    };
    if n == 0 {
        return Ok(Next::Ended(finish(state, output)?));
    }
    Ok(Next::More(answer(state, &input[..n.min(input.len())], output)?))
}

// One read, and what comes of it. No contract says which bytes come, so this one speaks of the buffer after the read.
fn turn(
    stdin: &mut Stdin,
    state: State,
    input: &mut [u8],
    output: &mut [u8],
) -> Result<Next, Failure>
    requires { 0 < length output.old }
    ensures { (got : Option ℕ) × AnswersRead (model_of state) got input.new result }
{
    let got = stdin.read(input).ok();
    proceed(state, got, input, output)
}

// The number of lines between two texts, on standard error. That this can't be written is not told.
fn tell(before: &str, lines: u64, after: &str) {
    io::write_all(STDERR_FILENO, before.as_bytes());
    io::print_decimal(STDERR_FILENO, lines);
    io::write_all(STDERR_FILENO, after.as_bytes());
}

// How the program ended.
fn print_end(end: Result<(), Failure>, lines: u64) {
    match end {
        Ok(()) => tell("boxlines: ", lines, " lines answered\n"),
        Err(Failure::Read) => tell("boxlines: a read failed after ", lines, " lines\n"),
        Err(Failure::Write) => tell("boxlines: a write failed after ", lines, " lines\n"),
    }
}

// Nothing says that the input ends, so the turns are counted, up to a number that no run reaches.
fn main(rt: HostRuntime) {
    let mut stdin = rt.stdin();
    let mut input = io::large_buffer();
    let mut output = io::large_buffer();
    let mut state = lines::start();
    let mut lines: u64 = 0;
    for _ in 0..u64::MAX {
        match turn(&mut stdin, state, &mut input, &mut output) {
            Ok(Next::More(answered)) => {
                state = answered.state;
                lines = lines.wrapping_add(answered.lines as u64);
            }
            Ok(Next::Ended(last)) => {
                print_end(Ok(()), lines.wrapping_add(last as u64));
                return;
            }
            Err(failure) => {
                print_end(Err(failure), lines);
                return;
            }
        }
    }
}
