// The walk through a guard's arguments and the values behind them. A pair that this walk has entered has its stamp; one from which no unassigned variable
// is reached has the mark GROUND for good.
ghost use Rattle.std.specs.Prelude.{◌≡◌, Bool, false, List, ℕ, ◌+◌, ◌*◌, ◌/◌, ◌%◌, ◌<◌, ◌^◌, eqb, length};
ghost use Rattle.meaning.specs.Terms.{Half, Term, Terms};
ghost use Rattle.meaning.specs.Compare.{Assignment};
ghost use Rattle.meaning.specs.Guards.{unassigned};
ghost use Rattle.term.specs.Setting.{Setting};
ghost use Rattle.run_compare.specs.Compare.{Template};
ghost use Rattle.run_ground.specs.Seeking.{Seeks, Sees};
ghost use Rattle.run_ground.specs.Looking.{
  Scene,
  kept_as,
  result_of,
  Placed,
  Looking,
  Told,
  Firm,
  Settled,
  Before,
  Found,
  AtPair,
  Entered,
  Clause,
  Leaf,
  leaf_result,
  Args,
  args_result,
};

use run_asked::asking::Hindered;
use run_readers::readers::meet;
use term::layout::TRIAL;
use term::scratch::{argument, count, set_at, word_at};
use term::word::{COMPOUND, READER, TAGS, WRITER, index};

// The mark of a pair from which no unassigned pair is reached. Stamps are greater.
const GROUND: u64 = 1;

// What a walk has found so far, as one number: four times one more than how many pairs the set of readers has, 2 if the first unassigned variable decides,
// and PENDING if an unassigned reader was met; or FAILED.
// Stays a number: an enum is handed over by a pointer, and the deepest walk would pass 8 MiB of stack.
const PENDING: usize = 1;

const FAILED: usize = 3;

// The beginning of a walk.
fn begun(first: bool, met: usize) -> usize
    requires { 4 * met + 8 < 2 ^ 64 }
    ensures { result ≡ kept_as first met false }
{
    if first { 4 * met + 6 } else { 4 * met + 4 }
}

// Whether nothing that stands behind matters.
fn ended(state: usize) -> bool
    ensures { result ≡ eqb (state % 4) 3 }
{
    state % 4 == FAILED
}

// Whether an unassigned variable was met.
fn pending(state: usize) -> bool
    ensures { result ≡ eqb (state % 2) 1 }
{
    state % 2 == PENDING
}

// How many pairs the set has.
fn met_in(state: usize) -> usize
    requires { 3 < state }
    ensures { state / 4 ≡ result + 1 }
{
    state / 4 - 1
}

// The state when a reader was met and the set has m pairs.
fn joined(state: usize, m: usize) -> usize
    requires { 4 * m + 8 < 2 ^ 64 }
    ensures { result ≡ 4 * (m + 1) + 2 * (state % 4 / 2) + 1 }
{
    4 * m + 4 + state % 4 / 2 * 2 + PENDING
}

// Marks as ground the pairs to which the last arguments of a term lead, as far as they have the walk's stamp; unless an unassigned variable was met. The
// other arguments were walked by themselves.
fn settle(s: &mut [u64], values: usize, marks: usize, stamp: u64, w: u64, state: usize)
    requires { (x : Scene) × (t : Term) × Placed s.old x values marks stamp × Told x w t × (state % 2 ≡ 0 → Firm x t) }
    ensures { (x : Scene) (t : Term) → Placed s.old x values marks stamp → Told x w t → (state % 2 ≡ 0 → Firm x t)
        → Settled x marks stamp s.old s.new }
{
    if pending(state) {
        return;
    }
    let mut t = w;
    loop {
        let tag = t % TAGS;
        let p = index(t / TAGS);
        if tag == COMPOUND {
            let k = count(s, p);
            if k == 0 {
                return;
            }
            t = argument(s, p, k);
            continue;
        }
        if tag > READER {
            return;
        }
        if word_at(s, marks, p) != stamp {
            return;
        }
        set_at(s, marks, p, GROUND);
        t = word_at(s, values, p);
    }
}

// At an unassigned variable: "a reader waits and a writer fails".
fn at_unassigned(
    s: &mut [u64],
    marks: usize,
    links: usize,
    tag: u64,
    p: usize,
    state: usize,
) -> usize
    requires { (x : Scene) × (values : ℕ) × (stamp : ℕ) × (m : ℕ) × (o : Bool) × (h : Half) × (n : ℕ)
        × Looking s.old x values marks links stamp state m o × AtPair x tag p h n }
    ensures { (x : Scene) (values stamp m : ℕ) (o : Bool) (h : Half) (n : ℕ) → Looking s.old x values marks links stamp state m o
        → AtPair x tag p h n → Found s.old s.new x marks links stamp m o (unassigned h n) result }
{
    if tag == WRITER {
        return FAILED;
    }
    let m = meet(s, marks + links, links, met_in(state), p);
    joined(state, m)
}

// Whether a pair is to be entered; it has the stamp then.
fn enters(s: &mut [u64], marks: usize, stamp: u64, p: usize) -> bool
    requires { marks + p < length s.old }
    ensures { Entered s.old s.new marks stamp p result }
{
    let m = word_at(s, marks, p);
    if m == GROUND || m == stamp {
        return false;
    }
    set_at(s, marks, p, stamp);
    true
}

// Through a term of the unit. The walk goes on to a compound's last argument and to a pair's value in its loop, and descends into the other arguments.
// Stays with its places one by one: a struct of them is handed over by a pointer, and the deepest walk would pass 8 MiB of stack.
fn from_unit(
    s: &mut [u64],
    values: usize,
    marks: usize,
    links: usize,
    stamp: u64,
    w: u64,
    state: usize,
) -> usize
    requires { (x : Scene) × (m : ℕ) × (o : Bool) × (t : Term) × Before s.old x values marks links stamp state m o w t }
    ensures { (x : Scene) (m : ℕ) (o : Bool) (t : Term) → Before s.old x values marks links stamp state m o w t
        → Found s.old s.new x marks links stamp m o (result_of x t) result }
{
    let mut found = state;
    let mut t = w;
    loop {
        let tag = t % TAGS;
        let p = index(t / TAGS);
        if tag == COMPOUND {
            let k = count(s, p);
            if k == 0 {
                return found;
            }
            // Stays a counted loop: `for` keeps its index on the stack, and deep values take half as long again.
            let mut i = 1;
            while i < k {
                let a = argument(s, p, i);
                found = from_unit(s, values, marks, links, stamp, a, found);
                settle(s, values, marks, stamp, a, found);
                if ended(found) {
                    return found;
                }
                i += 1;
            }
            t = argument(s, p, k);
            continue;
        }
        if tag > READER {
            return found;
        }
        let v = word_at(s, values, p);
        if v == 0 {
            return at_unassigned(s, marks, links, tag, p, found);
        }
        if enters(s, marks, stamp, p) {
            t = v;
            continue;
        }
        return found;
    }
}

// Through a term of the clause that is no compound: a variable is read as what the head gave it, and counts as an unassigned writer where that is nothing.
fn from_leaf(
    s: &mut [u64],
    values: usize,
    marks: usize,
    links: usize,
    stamp: u64,
    w: u64,
    state: usize,
) -> usize
    requires { (x : Scene) × (y : Clause) × (m : ℕ) × (o : Bool) × (t : Term) × Leaf s.old x y values marks links stamp state m o w t }
    ensures { (x : Scene) (y : Clause) (m : ℕ) (o : Bool) (t : Term) → Leaf s.old x y values marks links stamp state m o w t
        → Found s.old s.new x marks links stamp m o (leaf_result x y t) result }
{
    if w % TAGS > READER {
        return state;
    }
    let t = word_at(s, TRIAL, index(w / TAGS));
    if t == 0 {
        return FAILED;
    }
    let r = from_unit(s, values, marks, links, stamp, t, state);
    settle(s, values, marks, stamp, t, r);
    r
}

// Through the k arguments of a compound of the clause at a place.
fn through(
    s: &mut [u64],
    values: usize,
    marks: usize,
    links: usize,
    stamp: u64,
    q: usize,
    k: usize,
    state: usize,
) -> usize
    requires { (x : Scene) × (y : Clause) × (m : ℕ) × (o : Bool) × (ts : Terms) × Args s.old x y values marks links stamp state m o q k ts }
    ensures { (x : Scene) (y : Clause) (m : ℕ) (o : Bool) (ts : Terms) → Args s.old x y values marks links stamp state m o q k ts
        → Found s.old s.new x marks links stamp m o (args_result x y ts) result }
{
    let mut found = state;
    for i in 1..=k {
        let a = argument(s, q, i);
        if a % TAGS == COMPOUND {
            let p = index(a / TAGS);
            let n = count(s, p);
            found = through(s, values, marks, links, stamp, p, n, found);
        } else {
            found = from_leaf(s, values, marks, links, stamp, a, found);
        }
        if ended(found) {
            return found;
        }
    }
    found
}

// Looks through the arguments of a guard, whose compound stands at a place: whether no unassigned variable is found. Else there are readers to wait on, or
// the guard fails. Stamps from this one on are unused.
pub fn seek(
    s: &mut [u64],
    values: usize,
    marks: usize,
    links: usize,
    met: usize,
    first: bool,
    place: usize,
    count: usize,
    stamp: u64,
) -> Result<(), Hindered>
    requires { (x : Setting) × (y : Template) × (given : List Assignment) × (n : ℕ) × (ts : Terms)
        × Seeks s.old x y given n ts values marks links met place count stamp }
    ensures { (x : Setting) (y : Template) (given : List Assignment) (n : ℕ) (ts : Terms)
        → Seeks s.old x y given n ts values marks links met place count stamp
        → Sees s.old s.new x given ts marks links met first stamp result }
{
    let state = begun(first, met);
    let found = through(s, values, marks, links, stamp, place, count, state);
    if found == FAILED {
        return Err(Hindered::Fails);
    }
    if pending(found) {
        return Err(Hindered::Waits(met_in(found)));
    }
    Ok(())
}
