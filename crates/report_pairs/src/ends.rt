// What the report keeps of each pair of the run, in four words a pair behind the values: the end of the chain of values that begins with it, the
// length of its value where it was counted in the section, its number in the section, and where its value begins in the report, if its length is kept.
ghost use Rattle.std.specs.Prelude.{◌≡◌, List, ℕ, ◌+◌, ◌-◌, ◌*◌, ◌/◌, ◌%◌, ◌≤◌, ◌<◌, length, get_or, set, ◌≢◌, SomeIff};
ghost use Rattle.meaning.specs.Bytes.{Bytes};
ghost use Rattle.meaning.specs.Terms.{Term};
ghost use Rattle.term.specs.Words.{view, tag_in, rest_in};
ghost use Rattle.term.specs.Setting.{Setting};
ghost use Rattle.term.specs.Layout.{pairs_told, pair_facts};
ghost use Rattle.report_pairs.specs.Facts.{Readable, Shows, Led, LeadsOn, Counting, Leads, Cleared};
ghost use Rattle.report_pairs.specs.Pairs.{pair_seen};

use term::layout::{PAIR_FACTS, TRIAL};
use term::word::{View, look};

// The four words of a pair: its chain's end, its value's length, its number, and its value's place.
// Stays numbers in the lent scratch, which is all the memory that there is: in each word 0 says that nothing is kept.
pub const END: usize = 0;

pub const LENGTH: usize = 1;

pub const NUMBER: usize = 2;

pub const PLACE: usize = 3;

// A word of a pair's four, and setting it.
pub fn fact(s: &[u64], facts: usize, p: usize, i: usize) -> u64
    requires { facts + pair_facts * p + i < length s.now }
    ensures { result ≡ get_or s.now (facts + pair_facts * p + i) 0 }
{
    s[facts + PAIR_FACTS * p + i]
}

pub fn set_fact(s: &mut [u64], facts: usize, p: usize, i: usize, w: u64)
    requires { facts + pair_facts * p + i < length s.old }
    ensures { s.new ≡ set s.old (facts + pair_facts * p + i) w }
{
    s[facts + PAIR_FACTS * p + i] = w;
}

// No pair has an end, a length, a number or a place.
pub fn forget(s: &mut [u64], facts: usize, pairs: usize)
    requires { facts + pair_facts * pairs ≤ length s.old }
    ensures { Cleared s.old s.new facts pairs }
{
    s[facts..facts + PAIR_FACTS * pairs].fill(0);
}

// How many pairs the room has, as it is kept for the report.
fn pairs(s: &[u64]) -> usize
    requires { pairs_told < length s.now }
    ensures { result ≡ get_or s.now pairs_told 0 }
{
    s[TRIAL + 1] as usize
}

// The pair of a variable; none for any other term.
pub fn pair(w: u64) -> Option<usize>
    ensures { result ≡ pair_seen (view (tag_in w) (rest_in w)) }
{
    match look(w) {
        View::Writer(p) | View::Reader(p) => Some(p),
        _ => None,
    }
}

// The word of a pair's value, if it has one.
fn value(s: &[u64], facts: usize, p: usize) -> Option<u64>
    requires { (pairs_told < length s.now) × (get_or s.now pairs_told 0 ≤ facts) × (facts + p < length s.now) }
    ensures { SomeIff result (get_or s.now (facts - get_or s.now pairs_told 0 + p) 0 ≢ 0) (get_or s.now (facts - get_or s.now pairs_told 0 + p) 0) }
{
    let v = s[facts - pairs(s) + p];
    (v != 0).then_some(v)
}

// What a variable leads to: the end that is kept of its pair, or its value; none for an unassigned one and for any other term.
fn next(s: &[u64], facts: usize, w: u64) -> Option<u64>
    requires { (text : Bytes) × (x : Setting) × (t : Term) × Readable s.now text x facts × Shows s.now x t w }
    ensures { (text : Bytes) (x : Setting) (t : Term) → Readable s.now text x facts → Shows s.now x t w
        → LeadsOn s.now x t result }
{
    let p = pair(w)?;
    let e = fact(s, facts, p, END);
    if e != 0 {
        return Some(e);
    }
    value(s, facts, p)
}

// The end of the chain that begins with a term: over no more links than there are pairs.
pub fn end(s: &[u64], facts: usize, w: u64) -> u64
    requires { (text : Bytes) × (x : Setting) × (t : Term) × Readable s.now text x facts × Shows s.now x t w }
    ensures { (text : Bytes) (x : Setting) (t : Term) → Readable s.now text x facts → Shows s.now x t w
        → Led s.now x t result }
{
    let mut t = w;
    for _ in 0..pairs(s) {
        let Some(v) = next(s, facts, t) else {
            return t;
        };
        t = v;
    }
    t
}

// The same, kept for the next time.
pub fn lead(s: &mut [u64], facts: usize, w: u64) -> u64
    requires { (text : Bytes) × (x : Setting) × (t : Term) × Readable s.old text x facts × Shows s.old x t w }
    ensures { (text : Bytes) (x : Setting) (t : Term) → Readable s.old text x facts → Shows s.old x t w
        → Leads s.old s.new text x facts t result }
{
    let e = end(s, facts, w);
    if e == w {
        return e;
    }
    let Some(p) = pair(w) else {
        return e;
    };
    set_fact(s, facts, p, END, e);
    e
}
