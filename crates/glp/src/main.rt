// The program: runs the one job on standard input and prints its report, or `refused N line L`, ended by LF.
// Budget 10,000; room 1,024 pairs, 1,024 compounds, 128 goals; report buffer 65,536 bytes. Input in pieces is read whole; one byte past the longest
// text is read, so that a longer one is refused with number 3.
// What is printed is not stated: its file `stdout` is held to the reference. Read on: crate `job`.
#![tactic(auto)]

ghost use Rattle.std.specs.Prelude.{◌≡◌, ℕ, ◌≤◌, length};
ghost use Rattle.term.specs.Layout.{need_for};
ghost use Rattle.job.specs.Calling.{Within};

use job::call::{Unreported, call};
use term::layout::{COMPOUND_WORDS, COMPOUNDS};

// Stays a cast: Rust has no From between usize and u64.
fn refused(number: u32, line: usize) {
    io::write_all(1, b"refused ");
    io::print_decimal(1, u64::from(number));
    io::write_all(1, b" line ");
    io::print_decimal(1, line as u64);
    io::write_all(1, b"\n");
}

fn show(answer: Result<usize, Unreported>, buffer: &[u8])
    requires { Within answer buffer.now }
{
    match answer {
        Ok(n) => {
            io::write_all(1, &buffer[..n]);
        }
        Err(why) => refused(why.number(), why.line()),
    }
}

// As many words as the room needs.
const NEED: usize = COMPOUNDS + COMPOUND_WORDS * 1024 + 7 * 1024 + 6 * 128;

fn scratch() -> [u64; NEED]
    ensures { need_for 1024 1024 128 ≡ length result }
{
    [0; NEED]
}

fn longer_text() -> [u8; 16385]
    ensures { 16385 ≡ length result }
{
    [0; 16385]
}

fn answered(text: &[u8], s: &mut [u64], buffer: &mut [u8]) {
    let answer = call(text, 10000, 1024, 1024, 128, s, buffer);
    show(answer, buffer);
}

fn main() {
    let mut text = longer_text();
    let n = io::read_full(0, &mut text);
    let mut s = scratch();
    let mut buffer = io::large_buffer();
    answered(&text[..n], &mut s, &mut buffer);
}
