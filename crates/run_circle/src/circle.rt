// The circle test. While a trial is tested, each of the goal's pairs that it gives a term holds 7 and eight times its number in the trial.
ghost use Rattle.std.specs.Prelude.{◌≡◌, ℕ, ◌%◌, ◌/◌, ◌+◌, ◌*◌, ◌<◌, ◌^◌, true, false, List, length, get_or};
ghost use Rattle.std.proofs.Math.Option.{Option};
ghost use Rattle.meaning.specs.Terms.{Term};
ghost use Rattle.term.specs.Layout.{gift_pair, gift_term};
ghost use Rattle.term.specs.Words.{probe_word};
ghost use Rattle.run_circle.specs.Circle.{Entries, Held, held_word, entry_pair as entry_pair_meant, Trial, Tried, Tested, Answered};
ghost use Rattle.run_circle.specs.Ground.{GroundAt};
ghost use Rattle.run_circle.specs.Search.{
  Scene,
  Told,
  Searching,
  LeadsIs,
  LastIs,
  Settled,
  Names,
  Leading,
  Visiting,
  Visits,
  begun_state,
  met_open as met_open_meant,
  visited_one as visited_one_meant,
  JoinedIs,
  SinceIs,
  SearchedFrom,
};

use term::layout::{GIFTS, TRIAL};
use term::scratch::{argument, count, set_at, word_at};
use term::word::{COMPOUND, PROBE, READER, TAGS, WRITER, index, word};

// The mark of a pair from which no unassigned pair is reached. Stamps are greater.
const GROUND: u64 = 1;

// Any other mark has the stamp of the last search that visited the pair below STAMPS, and above, if it is known that all ways from the pair to unassigned
// ones go through one pair, one more than the place of that pair.
const STAMPS: u64 = 1099511627776;

// What a search finds: the pair is reached; it is not, but an unassigned pair may be; it is not, and all that was reached is ground.
// Stays a number: an enum is handed over by a pointer, and the deepest search would pass 8 MiB of stack.
const REACHED: u64 = 2;

const OPEN: u64 = 1;

const FIRM: u64 = 0;

// The state of a search that goes on, as one number: MET_OPEN if it has met a pair that may not be ground, else ALL_GROUND; and, if it has visited a pair
// since, twice one more than the place of the first.
// Stays a number: a struct takes more of each level's stack, and the deepest search would pass 8 MiB.
const ALL_GROUND: usize = 0;

const MET_OPEN: usize = 1;

// Whether it has met a pair that may not be ground.
fn met_open(state: usize) -> bool
    ensures { result ≡ met_open_meant state }
{
    state % 2 == MET_OPEN
}

// Whether it has visited a pair since.
fn visited_one(state: usize) -> bool
    ensures { result ≡ visited_one_meant state }
{
    state > MET_OPEN
}

// The place of the first pair that it has visited since. Halved last: so the search keeps 128 bytes of stack a level, else 144.
fn first_visited(state: usize) -> usize
    requires { 1 < state }
    ensures { state / 2 ≡ result + 1 }
{
    (state - 2) / 2
}

// The state at the beginning. From a term of the head a search never tells that all is ground.
fn begun(head: bool) -> usize
    ensures { result ≡ begun_state head }
{
    if head { MET_OPEN } else { ALL_GROUND }
}

// The state when an argument was searched.
fn joined(state: usize, r: u64) -> usize
    ensures { JoinedIs state r result }
{
    if r == FIRM { state } else { MET_OPEN }
}

// The state when a pair at a place is visited.
fn since(state: usize, p: usize) -> usize
    requires { 2 * p + 4 < 2 ^ 64 }
    ensures { SinceIs state p result }
{
    if visited_one(state) {
        return state;
    }
    state + 2 * p + 2
}

// The term of the head that the trial gives the i-th of its pairs.
fn given_term(s: &[u64], i: usize) -> u64
    requires { gift_term i < length s.now }
    ensures { result ≡ get_or s.now (gift_term i) 0 }
{
    s[GIFTS + 1 + 2 * i]
}

// Whether a term is a compound or a variable: from any other no pair is reached.
fn leads(w: u64) -> bool
    ensures { LeadsIs w result }
{
    matches!(w % TAGS, WRITER | READER | COMPOUND)
}

// Whether a pair with this word had no value before the trial.
fn unassigned(w: u64) -> bool {
    matches!(w % TAGS, 0 | PROBE)
}

// The last argument of the compound at a place from which a pair may be reached.
fn last(s: &[u64], q: usize) -> Option<usize>
    requires { q + 7 < length s.now }
    ensures { LastIs s.now q result }
{
    for k in (1..=count(s, q)).rev() {
        if leads(argument(s, q, k)) {
            return Some(k);
        }
    }
    None
}

// Marks a ground pair as such, and those to which the last arguments of its value lead, as far as they have the search's stamp.
fn settle(s: &mut [u64], values: usize, marks: usize, stamp: u64, pair: usize)
    requires { (x : Scene) × (place : ℕ) × (goal : ℕ) × Searching s.old x values marks place stamp goal × GroundAt x.unit x.before pair }
    ensures { (x : Scene) (place goal : ℕ) → Searching s.old x values marks place stamp goal → GroundAt x.unit x.before pair
        → Settled x marks stamp s.old s.new }
{
    let mut t = WRITER + TAGS * word(pair);
    while leads(t) {
        let q = index(t / TAGS);
        if t % TAGS == COMPOUND {
            let Some(k) = last(s, q) else {
                return;
            };
            t = argument(s, q, k);
            continue;
        }
        let m = word_at(s, marks, q);
        if m % STAMPS != stamp {
            return;
        }
        set_at(s, marks, q, GROUND);
        t = word_at(s, values, q);
    }
}

// The end of a search that has not found the pair, where all that was left is ground: marks the pair that its state names.
fn ended(s: &mut [u64], values: usize, marks: usize, stamp: u64, state: usize) -> u64
    requires { (x : Scene) × (place : ℕ) × (goal : ℕ) × Searching s.old x values marks place stamp goal × Names x state }
    ensures settled { (x : Scene) (place goal : ℕ) → Searching s.old x values marks place stamp goal → Names x state
        → Settled x marks stamp s.old s.new }
    ensures parity { result ≡ state % 2 }
{
    if visited_one(state) {
        settle(s, values, marks, stamp, first_visited(state));
    }
    if met_open(state) { OPEN } else { FIRM }
}

// Notes that from the first pair visited since all ways go through the pair at place p.
fn note(s: &mut [u64], values: usize, marks: usize, stamp: u64, state: usize, p: usize)
    requires { (x : Scene) × (place : ℕ) × (goal : ℕ) × Searching s.old x values marks place stamp goal × Leading x state p × (p < x.pairs) }
    ensures { (x : Scene) (place goal : ℕ) → Searching s.old x values marks place stamp goal → Leading x state p → p < x.pairs
        → Settled x marks stamp s.old s.new }
{
    if visited_one(state) {
        let q = first_visited(state);
        let m = word_at(s, marks, q);
        if m % STAMPS == stamp {
            set_at(s, marks, q, STAMPS * (word(p) + 1) + stamp);
        }
    }
}

// Visits the pair at place p, which has the mark m, and returns the term to go on with: the pair through which all ways from it go, or its value.
fn visit(
    s: &mut [u64],
    values: usize,
    marks: usize,
    stamp: u64,
    state: usize,
    p: usize,
    m: u64,
) -> u64
    requires { (x : Scene) × (place : ℕ) × (goal : ℕ) × (n : ℕ) × Visiting s.old x values marks place stamp goal state p m n }
    ensures { (x : Scene) (place goal n : ℕ) → Visiting s.old x values marks place stamp goal state p m n
        → Visits s.old s.new x marks stamp goal n result }
{
    let end = m / STAMPS;
    set_at(s, marks, p, STAMPS * end + stamp);
    if end != 0 {
        return WRITER + TAGS * (end - 1);
    }
    let t = word_at(s, values, p);
    if unassigned(t) {
        note(s, values, marks, stamp, state, p);
    }
    t
}

// Whether pair z is reached from a term: the head's, whose variables stand for what they are given, or the goal's. A pair with this search's stamp was
// visited. The search goes on to a compound's last argument that leads on and to a pair's value in its loop, and descends into the other arguments:
// `later` is the last one so far that leads on, or 0, and is searched when the next one is met.
// Stays with its places one by one: a struct of them is handed over by a pointer, and the deepest search would pass 8 MiB of stack.
fn from_term(
    s: &mut [u64],
    values: usize,
    marks: usize,
    z: usize,
    stamp: u64,
    head: bool,
    w: u64,
) -> u64
    requires { (x : Scene) × (goal : ℕ) × (v : Option Term) × Searching s.old x values marks z stamp goal × Told x head w v }
    ensures { (x : Scene) (goal : ℕ) (v : Option Term) → Searching s.old x values marks z stamp goal → Told x head w v
        → SearchedFrom s.old s.new x marks stamp goal v result }
{
    let mut side = head;
    let mut state = begun(head);
    let mut t = w;
    loop {
        let tag = t % TAGS;
        let p = index(t / TAGS);
        if tag == COMPOUND {
            let k = count(s, p);
            // Stays a word, 0 for none: an Option takes more of each level's stack.
            let mut later = 0;
            for i in 1..k + 1 {
                let a = argument(s, p, i);
                if leads(a) {
                    if later != 0 {
                        let r = from_term(s, values, marks, z, stamp, side, later);
                        if r == REACHED {
                            return REACHED;
                        }
                        state = joined(state, r);
                    }
                    later = a;
                }
            }
            if later == 0 {
                return ended(s, values, marks, stamp, state);
            }
            t = later;
            continue;
        }
        if tag == 0 {
            return OPEN;
        }
        if tag > READER {
            return ended(s, values, marks, stamp, state);
        }
        if side {
            t = word_at(s, TRIAL, p);
            side = false;
            continue;
        }
        if p == z {
            return REACHED;
        }
        let m = word_at(s, marks, p);
        if m == GROUND {
            return ended(s, values, marks, stamp, state);
        }
        if m % STAMPS == stamp {
            return OPEN;
        }
        t = visit(s, values, marks, stamp, state, p, m);
        state = since(state, p);
        let kind = t % TAGS;
        if kind == PROBE {
            let i = index(t / TAGS);
            t = given_term(s, i);
            side = true;
            state = MET_OPEN;
        }
    }
}

// What an entry's pair holds while the trial is tested, and what before and after.
fn held(testing: bool, i: usize) -> u64
    requires { probe_word i < 2 ^ 64 }
    ensures { result ≡ held_word testing i }
{
    if testing { PROBE + TAGS * word(i) } else { 0 }
}

// The place of the pair of the i-th entry.
fn entry_pair(s: &[u64], i: usize) -> usize
    requires { gift_pair i < length s.now }
    ensures { result ≡ entry_pair_meant s.now i }
{
    index(s[GIFTS + 2 * i])
}

// Sets the values of the entries' pairs to what they hold while the trial is tested, or back to nothing.
fn hold(s: &mut [u64], values: usize, n: usize, testing: bool)
    requires { Entries s.old values n }
    ensures { Held s.old s.new values n testing }
{
    for i in 0..n {
        let z = entry_pair(s, i);
        set_at(s, values, z, held(testing, i));
    }
}

// Whether one of the entries' pairs is reached from its own term.
fn from_entries(s: &mut [u64], values: usize, marks: usize, n: usize, stamp: u64) -> bool
    requires { (y : Trial) × (s₀ : List ℕ) × Tried s₀ y values marks n stamp × Held s₀ s.old values n true }
    ensures { (y : Trial) (s₀ : List ℕ) → Tried s₀ y values marks n stamp → Held s₀ s.old values n true
        → Answered s₀ s.old s.new y marks n stamp result }
{
    for i in 0..n {
        let z = entry_pair(s, i);
        let h = given_term(s, i);
        if from_term(s, values, marks, z, stamp + word(i), true, h) == REACHED {
            return true;
        }
    }
    false
}

// Whether a trial that gives n pairs of the goal a term makes a circle. Stamps from this one on are unused.
pub fn circle(s: &mut [u64], values: usize, marks: usize, n: usize, stamp: u64) -> bool
    requires { (y : Trial) × Tried s.old y values marks n stamp }
    ensures { (y : Trial) → Tried s.old y values marks n stamp → Tested s.old s.new y marks n stamp result }
{
    hold(s, values, n, true);
    let found = from_entries(s, values, marks, n, stamp);
    hold(s, values, n, false);
    found
}
