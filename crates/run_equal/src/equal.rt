// Two terms compared by their words. A link is a word in the list of the step's readers, behind those that stand in it: the place of a pair, and
// PLACES times the word that the pair is linked to. Where a pair's link stands is said by its rank, as for a reader; so nothing has to be cleared.
ghost use Rattle.std.specs.Prelude.{◌≡◌, ℕ, ◌+◌, ◌*◌, ◌≤◌, ◌<◌, List, length, get_or};
ghost use Rattle.meaning.specs.Terms.{Term};
ghost use Rattle.meaning.specs.Compare.{Assignment};
ghost use Rattle.term.specs.Setting.{Setting};
ghost use Rattle.term.specs.Words.{tag_in, rest_in};
ghost use Rattle.run_compare.specs.Compare.{Template};
ghost use Rattle.run_readers.specs.Readers.{Readers};
ghost use Rattle.run_equal.specs.Equal.{Scene, Means, VariableIs, GivenIs, ReadableGiven, PartIs, Readable, LinkIs, Puts, Put};
ghost use Rattle.run_equal.specs.Equal.{Working, Alike, Opened, Linked, Compared, SameRoot, MatchIs, Equating, Equated};

use run_chains::follow::follow;
use run_table::table::differ;
use term::layout::TRIAL;
use term::scratch::{count, set_at, word_at};
use term::word::{COMPOUND, READER, TAGS, WRITER, index, word};

// More than the place of any pair.
const PLACES: u64 = 65536;

// The answer of a comparison that found a difference. Any other is the number of places taken in the list.
// Stays a number: an enum is handed over by a pointer, and the deepest comparison would take more stack.
const UNEQUAL: usize = 65537;

// Whether a word is that of a variable.
fn is_variable(w: u64) -> bool
    ensures { VariableIs w result }
{
    matches!(w % TAGS, WRITER | READER)
}

// The word at a place of a clause's compound: a variable stands for what the head gave it.
fn given(s: &[u64], at: usize) -> u64
    requires { ReadableGiven s.now at }
    ensures { GivenIs s.now at result }
{
    let w = s[at];
    if is_variable(w) {
        return word_at(s, TRIAL, index(w / TAGS));
    }
    w
}

// The word at a place of a compound, the clause's or the unit's.
fn part(s: &[u64], at: usize) -> u64
    requires { Readable s.now at }
    ensures { PartIs s.now at result }
{
    if at < TRIAL {
        return given(s, at);
    }
    s[at]
}

// The word that a pair is linked to.
fn link(s: &[u64], lists: usize, links: usize, taken: usize, p: usize) -> Option<u64>
    requires { (lists + 2 * links ≤ length s.now) × (p < links) × (taken ≤ links) }
    ensures { LinkIs s.now lists taken p result }
{
    let rank = index(word_at(s, lists + links, p));
    if rank >= taken {
        return None;
    }
    let e = word_at(s, lists, rank);
    if index(e % PLACES) != p {
        return None;
    }
    match e / PLACES {
        0 => None,
        w => Some(w),
    }
}

// Links a pair to a word: where it has a link, this is the link now. A reader that the step has met keeps its rank, and a list that is full its links.
fn put(s: &mut [u64], lists: usize, links: usize, taken: usize, p: usize, w: u64) -> usize
    requires { (met : ℕ) × Readers s.old lists links met × Puts links taken met p w }
    ensures { (met : ℕ) → Readers s.old lists links met → Puts links taken met p w
        → Put s.old s.new lists links taken met p w result }
{
    let e = word(p) + PLACES * w;
    let rank = index(word_at(s, lists + links, p));
    if rank < taken {
        let old = word_at(s, lists, rank);
        if index(old % PLACES) == p {
            if old >= PLACES {
                set_at(s, lists, rank, e);
            }
            return taken;
        }
    }
    if taken >= links {
        return taken;
    }
    set_at(s, lists, taken, e);
    set_at(s, lists + links, p, word(taken));
    taken + 1
}

// The last variable to which the links of a variable lead; any other term is its own root.
fn root(s: &[u64], lists: usize, links: usize, taken: usize, w: u64) -> u64
    requires { (x : Scene) × (values : ℕ) × (v : Term) × Working s.now x values lists links taken × Means x w v }
    ensures { (x : Scene) (values : ℕ) (v : Term) → Working s.now x values lists links taken → Means x w v
        → Alike s.now x lists taken v result }
{
    let mut t = w;
    for _ in 0..taken {
        if !is_variable(t) {
            return t;
        }
        let Some(v) = link(s, lists, links, taken, index(t / TAGS)) else {
            return t;
        };
        if !is_variable(v) {
            return t;
        }
        t = v;
    }
    t
}

// What a root is looked into as: of a variable, the compound that it is linked to, where the other one is no variable; else its value, followed. That
// compound was met last, so its parts are the likeliest to be linked to the other's: in a doubling whose levels are cut at different places, they are.
// In line, so that the comparison keeps 144 bytes of stack a level.
#[inline(always)]
fn opened(s: &[u64], values: usize, lists: usize, links: usize, taken: usize, c: u64, d: u64) -> u64
    requires { (x : Scene) × (v : Term) × Working s.now x values lists links taken × Means x c v }
    ensures { (x : Scene) (v : Term) → Working s.now x values lists links taken → Means x c v
        → Opened s.now x lists taken v result }
{
    if !is_variable(c) {
        return c;
    }
    if !is_variable(d) {
        if let Some(v) = link(s, lists, links, taken, index(c / TAGS)) {
            if v % TAGS == COMPOUND {
                return v;
            }
        }
    }
    follow(s, values, links, c)
}

// Links a variable to a variable or a compound.
fn point(s: &mut [u64], lists: usize, links: usize, taken: usize, c: u64, d: u64) -> usize
    requires { (x : Scene) × (values : ℕ) × (v : Term) × (u : Term) × Working s.old x values lists links taken × Means x c v × Means x d u }
    ensures { (x : Scene) (values : ℕ) (v u : Term) → Working s.old x values lists links taken → Means x c v → Means x d u
        → Linked s.old s.new x values lists links taken v u result }
{
    if !is_variable(c) {
        return taken;
    }
    if !is_variable(d) && d % TAGS != COMPOUND {
        return taken;
    }
    put(s, lists, links, taken, index(c / TAGS), d)
}

// Links two roots, if one of them is a variable: of two variables the one that lies behind.
fn join(s: &mut [u64], lists: usize, links: usize, taken: usize, c: u64, d: u64) -> usize
    requires { (x : Scene) × (values : ℕ) × (v : Term) × (u : Term) × Working s.old x values lists links taken × Means x c v × Means x d u }
    ensures { (x : Scene) (values : ℕ) (v u : Term) → Working s.old x values lists links taken → Means x c v → Means x d u
        → Linked s.old s.new x values lists links taken v u result }
{
    if !is_variable(c) {
        return point(s, lists, links, taken, d, c);
    }
    if is_variable(d) && c / TAGS < d / TAGS {
        return point(s, lists, links, taken, d, c);
    }
    point(s, lists, links, taken, c, d)
}

// Whether two roots are the same word, or the two halves of a pair.
fn alike(c: u64, d: u64) -> bool
    ensures { SameRoot c d result }
{
    c == d || is_variable(c) && is_variable(d) && c / TAGS == d / TAGS
}

// Two terms of which neither is a variable: whether both are compounds of the same functor and number of arguments.
fn matches(s: &[u64], e: u64, f: u64) -> bool
    requires { (tag_in e ≡ 6 → rest_in e < length s.now) × (tag_in f ≡ 6 → rest_in f < length s.now) }
    ensures { MatchIs s.now e f result }
{
    e % TAGS == COMPOUND && f % TAGS == COMPOUND && !differ(s, index(e / TAGS), index(f / TAGS))
}

// Compares two terms, no deeper than `depth`: neither is deeper, and only links that are not true could lead on further. It goes on to the last arguments
// of two compounds in its loop, and descends into the others.
// Stays with its places one by one: a struct of them is handed over by a pointer, and the deepest comparison would take more stack.
fn same(
    s: &mut [u64],
    values: usize,
    lists: usize,
    links: usize,
    first: usize,
    depth: usize,
    left: u64,
    right: u64,
) -> usize
    requires { (x : Scene) × (v : Term) × (u : Term) × Working s.old x values lists links first × Means x left v × Means x right u }
    ensures { (x : Scene) (v u : Term) → Working s.old x values lists links first → Means x left v → Means x right u
        → Compared s.old s.new x values lists links first depth v u result }
{
    let mut taken = first;
    let mut a = left;
    let mut b = right;
    for deep in (0..depth).rev() {
        let c = root(s, lists, links, taken, a);
        let d = root(s, lists, links, taken, b);
        if alike(c, d) {
            return taken;
        }
        let e = opened(s, values, lists, links, taken, c, d);
        let f = opened(s, values, lists, links, taken, d, c);
        taken = join(s, lists, links, taken, c, d);
        if e == f {
            return taken;
        }
        if !matches(s, e, f) {
            return UNEQUAL;
        }
        let mut p = index(e / TAGS);
        let mut q = index(f / TAGS);
        let mut k = count(s, p);
        if k == 0 {
            return taken;
        }
        // Stays a loop over places: an index beside both is one number more that each level keeps on the stack.
        while 1 < k {
            p += 1;
            q += 1;
            k -= 1;
            let t = part(s, p);
            let u = part(s, q);
            let r = same(s, values, lists, links, taken, deep, t, u);
            if r == UNEQUAL {
                return UNEQUAL;
            }
            taken = r;
        }
        a = part(s, p + 1);
        b = part(s, q + 1);
    }
    UNEQUAL
}

// Whether the two arguments of the guard at a place are equal. Written out they are not deeper than, for each pair, there are words for compounds.
pub fn equal(
    s: &mut [u64],
    values: usize,
    marks: usize,
    links: usize,
    met: usize,
    place: usize,
) -> bool
    requires { (x : Setting) × (y : Template) × (given : List Assignment) × (n : ℕ) × (t : Term) × (u : Term)
        × Equating s.old x y given values marks links met n place t u }
    ensures { (x : Setting) (y : Template) (given : List Assignment) (n : ℕ) (t u : Term)
        → Equating s.old x y given values marks links met n place t u
        → Equated s.old s.new x given marks links met t u result }
{
    let depth = (links + 2) * (values + 8) + 1;
    let t = given(s, place + 1);
    let u = given(s, place + 2);
    same(s, values, marks + links, links, met, depth, t, u) != UNEQUAL
}
