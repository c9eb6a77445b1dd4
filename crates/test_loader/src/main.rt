// Loads framed texts from standard input and prints the number, line and offset of each, all 0 for a job that was loaded.
// A frame is how often to load the text, and its length, in six digits each with an LF behind; then the text and an LF. Every text is loaded
// over the same scratch, so what one leaves behind must not matter to the next. More than once is for measuring.
#![tactic(auto)]

ghost use Rattle.std.specs.Prelude.{◌≤◌, length, IfSome};

use loader::load::load;
use loader::refusal::Refusal;
use term::layout::{COMPOUND_WORDS, COMPOUNDS, Room};

// As many words as the smallest room needs.
const NEED: usize = COMPOUNDS + COMPOUND_WORDS + 7 + 6;

fn digit(c: u8) -> usize
    ensures { result ≤ 9 }
{
    match c {
        b'0'..=b'9' => (c - b'0') as usize,
        _ => 0,
    }
}

// The number of six digits in front of the input, unless it ends there.
fn number(line: &mut [u8; 7]) -> Option<usize>
    ensures { IfSome result (λ n. n ≤ 1000000) }
{
    if io::read_full(0, line) < 7 {
        return None;
    }
    let high = digit(line[0]) * 100000 + digit(line[1]) * 10000 + digit(line[2]) * 1000;
    Some(high + digit(line[3]) * 100 + digit(line[4]) * 10 + digit(line[5]))
}

fn once(text: &[u8], n: usize, s: &mut [u64; NEED]) -> Result<(usize, usize), Refusal>
    requires { n ≤ length text.now }
{
    let room = Room {
        pairs: 1,
        compounds: 1,
        goals: 1,
    };
    load(&text[..n], s, room)
}

// The first n bytes loaded so many times: the last answer.
fn many(text: &[u8], n: usize, s: &mut [u64; NEED], times: usize) -> Result<(usize, usize), Refusal>
    requires { n ≤ length text.now }
{
    let mut answer = Ok((0, 0));
    for _ in 0..times {
        answer = once(text, n, s);
    }
    answer
}

fn told(number: u64, line: usize, offset: usize) {
    io::print_decimal(1, number);
    io::write_all(1, b" ");
    io::print_decimal(1, line as u64);
    io::write_all(1, b" ");
    io::print_decimal(1, offset as u64);
    io::write_all(1, b"\n");
}

fn show(answer: Result<(usize, usize), Refusal>) {
    match answer {
        Ok(_) => told(0, 0, 0),
        Err(why) => told(why.number() as u64, why.line(), why.offset()),
    }
}

// One frame, if there is one.
fn frame(line: &mut [u8; 7], text: &mut [u8], s: &mut [u64; NEED]) -> Option<()>
    requires { 20001 ≤ length text.old }
{
    let times = number(line)?;
    let n = number(line)?;
    if 20000 < n {
        return None;
    }
    let m = n + 1;
    if io::read_full(0, &mut text[..m]) < m {
        return None;
    }
    show(many(text, n, s, times));
    Some(())
}

// Up to a hundred thousand frames.
fn frames(line: &mut [u8; 7], text: &mut [u8], s: &mut [u64; NEED])
    requires { 20001 ≤ length text.old }
{
    for _ in 0..100000 {
        if frame(line, text, s).is_none() {
            return;
        }
    }
}

fn main() {
    let mut line = [0u8; 7];
    let mut text = io::large_buffer();
    // Scratch that holds something already.
    let mut s = [7; NEED];
    frames(&mut line, &mut text, &mut s);
}
