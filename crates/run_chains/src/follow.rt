// "A goal term that is an assigned variable is followed to its value, again and again."
ghost use Rattle.std.specs.Prelude.{ℕ};
ghost use Rattle.meaning.specs.Terms.{Half, Term, variable};
ghost use Rattle.term.specs.Setting.{Setting};
ghost use Rattle.run_chains.specs.Follow.{Reads, FollowedTo, PairAt, Ahead};

use term::layout::ENDS_AFTER;
use term::scratch::word_at;
use term::word::{READER, TAGS, View, look};

// The values of the room's pairs stand from a place on, and behind six words a pair the ends that are kept. A chain has no more links than there are pairs.
pub fn follow(s: &[u64], values: usize, links: usize, w: u64) -> u64
    requires { (x : Setting) × (t : Term) × Reads s.now x values links t w }
    ensures { (x : Setting) (t : Term) → Reads s.now x values links t w → FollowedTo s.now x values links t result }
{
    let mut t = w;
    for _ in 0..links {
        let Some(v) = ahead(s, values, links, t) else {
            return t;
        };
        t = v;
    }
    t
}

// What an assigned variable leads to: its value, or a term further on. No other term leads on.
fn ahead(s: &[u64], values: usize, links: usize, w: u64) -> Option<u64>
    requires { (x : Setting) × (t : Term) × Reads s.now x values links t w }
    ensures { (x : Setting) (t : Term) → Reads s.now x values links t w → Ahead s.now x values links t result }
{
    match look(w) {
        View::Writer(p) | View::Reader(p) => led(s, values, links, p),
        _ => None,
    }
}

// The same of a pair. The end that is kept is asked for only where the value is a reader.
fn led(s: &[u64], values: usize, links: usize, p: usize) -> Option<u64>
    requires { (x : Setting) × (n : ℕ) × PairAt s.now x values links n p }
    ensures { (x : Setting) (n : ℕ) → PairAt s.now x values links n p
        → (h : Half) → Ahead s.now x values links (variable h n) result }
{
    let v = word_at(s, values, p);
    if v == 0 {
        return None;
    }
    if v % TAGS != READER {
        return Some(v);
    }
    let e = word_at(s, values + ENDS_AFTER * links, p);
    Some(if e == 0 { v } else { e })
}
