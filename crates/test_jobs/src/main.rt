// Runs framed jobs from standard input, each with figures of its own, and prints of each its number, line, length and offset and then its report.
// A frame is `BUDGET PAIRS COMPOUNDS GOALS BUFFER SCRATCH NEED LENGTH`, ended by LF; then so many bytes of text and an LF. The scratch that is lent is
// as much longer or shorter than the call's own need as SCRATCH is than NEED, and at most 600,000 words. Every job runs over the same scratch. A
// frame whose buffer is larger than 65,536 bytes, or its text than 65,535, ends the program.
// Its first jobs are tests/corners.txt: the cases of document 01, and further corners.
#![tactic(auto)]

ghost use Rattle.std.specs.Prelude.{◌≡◌, ℕ, ◌≤◌, ◌<◌, length};
ghost use Rattle.job.specs.Calling.{Within};

use job::call::{Unreported, call};
use term::layout::{COMPOUND_WORDS, COMPOUNDS};

// Stay casts: Rust has no From between usize and u64.
fn told(number: u32, line: usize, size: usize, offset: usize) {
    io::print_decimal(1, u64::from(number));
    io::write_all(1, b" ");
    io::print_decimal(1, line as u64);
    io::write_all(1, b" ");
    io::print_decimal(1, size as u64);
    io::write_all(1, b" ");
    io::print_decimal(1, offset as u64);
    io::write_all(1, b"\n");
}

fn show(answer: Result<usize, Unreported>, buffer: &[u8])
    requires { Within answer buffer.now }
{
    match answer {
        Ok(n) => {
            told(0, 0, n, 0);
            io::write_all(1, &buffer[..n]);
        }
        Err(why) => told(why.number(), why.line(), why.length(), why.offset()),
    }
}

// Stays beside the one of `test_loader`: a crate for one line is no plainer.
fn digit(c: u8) -> usize
    ensures { result ≤ 9 }
{
    if c.is_ascii_digit() {
        usize::from(c - b'0')
    } else {
        0
    }
}

fn with_digit(n: usize, c: u8) -> usize
    requires { n ≤ 999999999 }
    ensures { result ≤ 999999999 }
{
    if n < 100000000 {
        return n * 10 + digit(c);
    }
    n
}

// The decimal number in front of the input, up to the byte behind it, or some number from a hundred million on for a longer one; at the end of the
// input 1,000,000,000.
fn number(one: &mut [u8]) -> usize
    requires { 1 ≤ length one.old }
    ensures { result ≤ 1000000000 }
{
    let mut n = 0;
    for _ in 0..22 {
        if io::read_full(0, one) < 1 {
            return 1000000000;
        }
        let c = one[0];
        if c < b'0' {
            return n;
        }
        n = with_digit(n, c);
    }
    n
}

// How many words are lent.
fn lent_words(
    pairs: usize,
    compounds: usize,
    goals: usize,
    more: usize,
    less: usize,
    most: usize,
) -> usize
    requires { (pairs ≤ 1000000000) × (compounds ≤ 1000000000) × (goals ≤ 1000000000) × (more ≤ 1000000000) }
    ensures { result ≤ most }
{
    let all = COMPOUNDS + COMPOUND_WORDS * compounds + 7 * pairs + 6 * goals + more;
    all.saturating_sub(less).min(most)
}

// The numbers of a frame.
#[derive(Clone, Copy)]
struct Figures {
    budget: usize,
    pairs: usize,
    compounds: usize,
    goals: usize,
    size: usize,
    scratch: usize,
    need: usize,
    n: usize,
}

fn head(one: &mut [u8]) -> Figures
    requires { 1 ≤ length one.old }
    ensures { (result.pairs ≤ 1000000000) × (result.compounds ≤ 1000000000) × (result.goals ≤ 1000000000) × (result.scratch ≤ 1000000000) }
{
    let budget = number(one);
    let pairs = number(one);
    let compounds = number(one);
    let goals = number(one);
    let size = number(one);
    let scratch = number(one);
    let need = number(one);
    let n = number(one);
    Figures {
        budget,
        pairs,
        compounds,
        goals,
        size,
        scratch,
        need,
        n,
    }
}

// One call over the whole scratch and the whole buffer.
fn asked(text: &[u8], h: Figures, s: &mut [u64], buffer: &mut [u8]) {
    let answer = call(text, h.budget, h.pairs, h.compounds, h.goals, s, buffer);
    show(answer, buffer);
}

// One frame, if there is one that fits: whether there was. At the end of the input every number of a frame is 1,000,000,000.
fn frame(one: &mut [u8], text: &mut [u8], s: &mut [u64], buffer: &mut [u8]) -> bool
    requires { 1 ≤ length one.old }
{
    let h = head(one);
    if text.len() <= h.n || buffer.len() < h.size {
        return false;
    }
    io::read_full(0, &mut text[..h.n + 1]);
    let words = lent_words(h.pairs, h.compounds, h.goals, h.scratch, h.need, s.len());
    asked(&text[..h.n], h, &mut s[..words], &mut buffer[..h.size]);
    true
}

// Up to a hundred thousand frames.
fn frames(one: &mut [u8], text: &mut [u8], s: &mut [u64], buffer: &mut [u8])
    requires { 1 ≤ length one.old }
{
    for _ in 0..100000 {
        if !frame(one, text, s, buffer) {
            return;
        }
    }
}

fn main() {
    let mut one = [0u8; 1];
    let mut text = io::large_buffer();
    let mut buffer = io::large_buffer();
    // Scratch that holds something already.
    let mut s = [7u64; 600000];
    frames(&mut one, &mut text, &mut s, &mut buffer);
}
