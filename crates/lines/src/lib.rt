// The line program of document 01 over input that comes in pieces of any size, into outputs of any size.
#![tactic(auto)]

mod line;
mod pending;
mod search;

ghost use Rattle.std.specs.Prelude.{◌≡◌, length, take};
ghost use Rattle.lines_theory.specs.Feed.{begin, overwritten, is_done, line_ends, lines_finished};
ghost use Rattle.lines.specs.States.{model_of, step_fed, finish_fed};

use line::Line;
use pending::Pending;

// What is kept between calls: the line so far, and what is not put out yet.
#[derive(Drop)]
pub struct State {
    line: Line,
    pending: Pending,
}

// What a call of step took and put out, and how many lines it answered: those whose byte 10 it took.
#[derive(Drop)]
pub struct Stepped {
    pub state: State,
    pub consumed: usize,
    pub produced: usize,
    pub answered: usize,
}

// The state before any input.
pub fn start() -> State
    ensures { model_of result ≡ begin }
{
    State {
        line: Line::empty(),
        pending: Pending::none(),
    }
}

// Takes what it can of a piece of the input, and puts out what it can: pending bytes go first, and input is taken
// only while nothing is pending. Where it took less than the piece, the output is full; hand in the rest with the next
// call.
pub fn step(state: State, input: &[u8], output: &mut [u8]) -> Stepped
    ensures state { model_of result.state ≡ (step_fed state input.now output.old).model }
    ensures consumed { result.consumed ≡ (step_fed state input.now output.old).consumed }
    ensures produced { result.produced ≡ length (step_fed state input.now output.old).produced }
    ensures answered { result.answered ≡ line_ends (take result.consumed input.now) }
    ensures output { output.new
        ≡ overwritten (step_fed state input.now output.old).produced output.old }
{
    let State {
        mut line,
        mut pending,
    } = state;
    let mut consumed = 0;
    let mut produced = 0;
    let mut answered = 0;
    loop {
        produced += pending.emit(&mut output[produced..]);
        if !pending.is_empty() {
            break;
        }
        let rest = &input[consumed..];
        let Some(end) = search::line_end(rest) else {
            line.hold(rest);
            consumed = input.len();
            break;
        };
        line.hold(&rest[..end]);
        line.end(&mut pending);
        consumed += end + 1;
        answered += 1;
    }
    Stepped {
        state: State { line, pending },
        consumed,
        produced,
        answered,
    }
}

// What a call of finish put out, how many lines it answered, and whether that was all.
#[derive(Drop)]
pub struct Finished {
    pub state: State,
    pub produced: usize,
    pub answered: usize,
    pub done: bool,
}

// Puts out, after the last piece of the input, what is still to come: pending bytes, then the answer to a line that no
// byte 10 ended. To be called until it is done.
pub fn finish(state: State, output: &mut [u8]) -> Finished
    ensures state { model_of result.state ≡ (finish_fed state output.old).model }
    ensures produced { result.produced ≡ length (finish_fed state output.old).produced }
    ensures answered { result.answered ≡ lines_finished (model_of state) (length output.old) }
    ensures done { result.done ≡ is_done (finish_fed state output.old) }
    ensures output { output.new ≡ overwritten (finish_fed state output.old).produced output.old }
{
    let State {
        mut line,
        mut pending,
    } = state;
    let mut produced = pending.emit(output);
    let mut answered = 0;
    if pending.is_empty() && !line.is_empty() {
        line.end(&mut pending);
        produced += pending.emit(&mut output[produced..]);
        answered = 1;
    }
    let done = pending.is_empty();
    Finished {
        state: State { line, pending },
        produced,
        answered,
        done,
    }
}
