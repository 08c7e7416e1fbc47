// Runs the stored inputs of the line program (tests/README.md: lines) through `lines`, once for each way to cut them:
// pieces of 1, 7, 128 and of mixed sizes, into outputs of several sizes. The answers are the same each time.
#![tactic(auto)]

ghost use Rattle.std.specs.Prelude.{◌≤◌, length};

use lines::State;
use std::fs::File;
use std::io::Read;

// The streams that are written to, by POSIX's numbers.
const STDOUT_FILENO: i32 = 1;

const STDERR_FILENO: i32 = 2;

// How a file is cut: into pieces of one size, or of mixed sizes, of 1 to 400: from 16 down, then from 400 down, and again.
#[derive(Clone, Copy, PartialEq, Eq, Debug)]
enum Pieces {
    Of(usize),
    Mixed,
}

impl Pieces {
    fn size(self, turn: u64) -> usize {
        match self {
            Pieces::Of(size) => size,
            Pieces::Mixed => 1 + ((u64::MAX - turn) % 400) as usize,
        }
    }
}

// Loops here count their turns, up to a number that no run reaches: nothing says that a file ends.
fn feed(start: State, input: &[u8], pieces: Pieces, output: &mut [u8]) -> State {
    let mut state = start;
    let mut at = 0;
    for turn in 0..u64::MAX {
        let rest = &input[at..];
        let cut = pieces.size(turn).min(rest.len());
        let stepped = lines::step(state, &rest[..cut], output);
        state = stepped.state;
        at += stepped.consumed;
        let produced = stepped.produced;
        io::write_all(STDOUT_FILENO, &output[..produced]);
        if cut == 0 && produced == 0 {
            break;
        }
    }
    state
}

fn finish(start: State, output: &mut [u8]) {
    let mut state = start;
    for _ in 0..u64::MAX {
        let finished = lines::finish(state, output);
        state = finished.state;
        let produced = finished.produced;
        io::write_all(STDOUT_FILENO, &output[..produced]);
        if finished.done {
            break;
        }
    }
}

// What comes of a read. One that fails is taken for the end of the file.
fn read(file: &mut File, input: &mut [u8]) -> usize
    ensures { result ≤ length input.new }
{
    file.read(input).unwrap_or(0)
}

fn run(file: &mut File, pieces: Pieces, output: &mut [u8]) {
    let mut input = io::buffer();
    let mut state = lines::start();
    for _ in 0..u64::MAX {
        let n = read(file, &mut input);
        if n == 0 {
            finish(state, output);
            return;
        }
        state = feed(state, &input[..n], pieces, output);
    }
}

// The files, in their order.
const FILES: [&str; 15] = [
    "01", "02", "03", "04", "05", "06", "07", "08", "09", "10", "11", "12", "13", "14", "15",
];

// Every file, up to the first that can't be opened, which is named on standard error.
fn files(rt: &HostRuntime, pieces: Pieces, output: &mut [u8]) {
    for name in FILES {
        let Ok(mut file) = File::open(rt, name) else {
            io::write_all(STDERR_FILENO, name.as_bytes());
            io::write_all(STDERR_FILENO, b": cannot be opened\n");
            return;
        };
        run(&mut file, pieces, output);
    }
}

fn main(rt: HostRuntime) {
    files(&rt, Pieces::Of(1), &mut [0; 3]);
    files(&rt, Pieces::Of(7), &mut [0; 1]);
    files(&rt, Pieces::Of(128), &mut [0; 128]);
    files(&rt, Pieces::Mixed, &mut [0; 50]);
}
