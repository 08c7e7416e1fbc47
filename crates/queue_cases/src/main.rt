// Runs stored calls on a queue and prints each answer, with a digest of the queue and of the output. The calls and the answers
// that are expected were made by a separately written coder; tests/README.md has their format (sheets).
#![tactic(auto)]

mod calls;
mod text;

ghost use Rattle.std.specs.Prelude.{◌≤◌};

use std::io::{Read, Stdin};

// Where the run stands: the bytes of the line so far and the queue, each in the front of its array.
#[derive(Drop)]
struct Session {
    line: [u8; 4096],
    held: usize,
    queue: [u8; 65536],
    size: usize,
    ghost held_fits: { held ≤ 4096 },
    ghost size_fits: { size ≤ 65536 },
}

impl Session {
    fn new() -> Session {
        Session {
            line: io::buffer(),
            held: 0,
            queue: io::large_buffer(),
            size: 0,
        }
    }

    // Takes one byte of input: a line's end runs its call, and any other byte is added to the line, if there is room.
    fn take(&mut self, byte: u8) {
        if byte == b'\n' {
            self.size = calls::run(&self.line[..self.held], &mut self.queue, self.size);
            self.held = 0;
        } else if self.held < self.line.len() {
            self.line[self.held] = byte;
            self.held += 1;
        }
    }
}

// A proved loop has to end, so the reads are counted, up to a number that no run reaches. One that fails is taken for the end of the input.
fn run(input: &mut Stdin) {
    let mut session = Session::new();
    let mut space = io::large_buffer();
    for _ in 0..u64::MAX {
        let n = input.read(&mut space).unwrap_or(0);
        if n == 0 {
            return;
        }
        for byte in &space[..n] {
            session.take(*byte);
        }
    }
}

fn main(rt: HostRuntime) {
    run(&mut rt.stdin());
}
