// The length of a term written out with every assignment applied, and the numbers of its unassigned pairs: the pair's four words have the length of
// its value where it was counted in the section, where it begins there, and its number. The section's numbers given so far stand in the trial's first word.
ghost use Rattle.std.specs.Prelude.{◌≡◌, List, [], ◌∷◌, ◌++◌, ℕ, ◌+◌, ◌*◌, ◌≤◌, ◌<◌, ◌/◌, ◌%◌, length, get_or};
ghost use Rattle.meaning.specs.Bytes.{Bytes};
ghost use Rattle.meaning.specs.Terms.{Half, Integer, Functor, Term, Terms};
ghost use Rattle.meaning.specs.Report.{alone, number_in, integer_bytes};
ghost use Rattle.std.proofs.Math.Option.{none};
ghost use Rattle.meaning.specs.State.{value};
ghost use Rattle.term.specs.Cells.{bits};
ghost use Rattle.term.specs.Words.{view, tag_in, rest_in};
ghost use Rattle.term.specs.Setting.{Setting, RangedInteger};
ghost use Rattle.report_pairs.specs.Threaded.{full, seen_after, shown};
ghost use Rattle.report_pairs.specs.Facts.{Readable, Shows, Led, Counting, Placed, Changed};
ghost use Rattle.report_count.specs.Counts.{Counts, CountedTerm, LeadsTo, LeafCounted, LengthKnown, KnownNow};
ghost use Rattle.report_pairs.specs.Laid.{capped, Has};
ghost use Rattle.report_pairs.specs.Walk.{opening_bytes, Opens, StandsAt};
ghost use Rattle.report_pairs.specs.Pairs.{NoCompound};

use report_pairs::cells::{behind, functor};
use report_pairs::ends::{LENGTH, NUMBER, PLACE, fact, lead, pair, set_fact};
use report_pairs::length::{CEILING, digits, further};
use term::layout::TRIAL;
use term::scratch::word_at;
use term::word::{View, index, look};

// Stays two parameters, the scratch and where its facts begin: counting changes the scratch, so no struct can lend it for reading as `Source` of crate
// `report_leaves` does for writing, and each reading call would build such a struct anew.

// "In order of first appearance in the section": the pair's number, the next one if it has none.
fn number(s: &mut [u64], facts: usize, p: usize) -> u64
    requires { (text : Bytes) × (x : Setting) × (seen : List ℕ) × (n : ℕ) × Readable s.old text x facts × Counting s.old x facts seen
        × (length seen ≤ 16777216) × (n < length x.values) × (value x.values n ≡ none) × (p ≡ x.places.pair n) }
    ensures { (text : Bytes) (x : Setting) (seen : List ℕ) (n : ℕ) → Readable s.old text x facts → Counting s.old x facts seen
        → n < length x.values → value x.values n ≡ none → p ≡ x.places.pair n → (h : Half)
        → Changed s.old s.new x facts × Readable s.new text x facts × Counting s.new x facts (seen_after seen (Term.variable h n))
        × (result ≡ number_in n (seen_after seen (Term.variable h n)))
        × ((whole : Bytes) → Placed s.old x facts seen whole → Placed s.new x facts (seen_after seen (Term.variable h n)) whole) }
{
    let k = fact(s, facts, p, NUMBER);
    if k != 0 {
        return k;
    }
    let n = s[TRIAL] + 1;
    s[TRIAL] = n;
    set_fact(s, facts, p, NUMBER, n);
    n
}

// An integer by its 32 bits.
fn integer(n: u64) -> usize
    requires { (i : Integer) × RangedInteger i × (n ≡ bits i) }
    ensures { (i : Integer) → RangedInteger i → n ≡ bits i → result ≡ length (integer_bytes i) }
{
    if n < 2147483648 {
        return digits(n);
    }
    1 + digits(4294967296 - n)
}

// A name by its number.
fn name(s: &[u64], k: usize) -> usize
    requires { 2 * k + 1 < length s.now }
    ensures { result ≡ get_or s.now (2 * k + 1) 0 }
{
    index(word_at(s, 2 * k, 1))
}

// A term that is no compound, and no assigned variable.
fn leaf(s: &mut [u64], facts: usize, w: u64) -> usize
    requires { (text : Bytes) × (x : Setting) × (seen : List ℕ) × (t : Term) × Readable s.old text x facts × Counting s.old x facts seen
        × (length seen ≤ 16777216) × Led s.old x t w }
    ensures { (text : Bytes) (x : Setting) (seen : List ℕ) (t : Term) → Readable s.old text x facts → Counting s.old x facts seen
        → Led s.old x t w → NoCompound (view (tag_in w) (rest_in w)) → LeafCounted s.old s.new text x facts seen t result }
{
    match look(w) {
        View::Writer(p) => 1 + digits(number(s, facts, p)),
        View::Reader(p) => 2 + digits(number(s, facts, p)),
        View::Integer(bits) => integer(bits),
        View::Name(k) => name(s, k),
        View::Empty => 2,
        _ => 0,
    }
}

// The length of a variable's value, if it was counted.
fn counted(s: &[u64], facts: usize, w: u64) -> Option<usize>
    requires { (text : Bytes) × (x : Setting) × (t : Term) × Readable s.now text x facts × Shows s.now x t w }
    ensures { (text : Bytes) (x : Setting) (seen : List ℕ) (t : Term) → Readable s.now text x facts → Counting s.now x facts seen
        → Shows s.now x t w → LengthKnown x seen t result }
{
    let p = pair(w)?;
    let n = index(fact(s, facts, p, LENGTH));
    (n != 0).then_some(n)
}

// The length of a variable's value and where it begins are kept, if it stays below the ceiling.
fn keep(s: &mut [u64], facts: usize, w: u64, at: usize, to: usize)
    requires { (text : Bytes) × (x : Setting) × (t : Term) × Readable s.old text x facts × Shows s.old x t w × (at ≤ to) }
    ensures { (text : Bytes) (x : Setting) (seen : List ℕ) (t : Term) → Readable s.old text x facts → Counting s.old x facts seen
        → Shows s.old x t w → KnownNow x facts seen t at to
        → Changed s.old s.new x facts × Readable s.new text x facts × Counting s.new x facts seen
        × ((whole : Bytes) → Has whole at (shown seen alone (full x.values t)) → Placed s.old x facts seen whole → Placed s.new x facts seen whole) }
{
    if to == CEILING {
        return;
    }
    if let Some(p) = pair(w) {
        set_fact(s, facts, p, LENGTH, (to - at) as u64);
        set_fact(s, facts, p, PLACE, at as u64);
    }
}

// A term, standing alone.
pub fn count_term(s: &mut [u64], facts: usize, at: usize, w: u64) -> usize
    requires { (text : Bytes) × (x : Setting) × (seen : List ℕ) × (t : Term) × Counts s.old text x facts seen at × Shows s.old x t w }
    ensures { (text : Bytes) (x : Setting) (seen : List ℕ) (t : Term) → Counts s.old text x facts seen at → Shows s.old x t w
        → CountedTerm s.old s.new text x facts seen t at result }
{
    if at == CEILING {
        return at;
    }
    let e = lead(s, facts, w);
    match look(e) {
        View::Compound(q) => count_compound(s, facts, at, w, q),
        _ => further(at, leaf(s, facts, e)),
    }
}

// A compound to which a term leads: its length if it is known, else it is counted, and kept.
#[cycle(count_arguments_count_compound)]
fn count_compound(s: &mut [u64], facts: usize, at: usize, w: u64, q: usize) -> usize
    requires { (text : Bytes) × (x : Setting) × (seen : List ℕ) × (t : Term) × Counts s.old text x facts seen at × (at < 16777217)
        × Shows s.old x t w × LeadsTo s.old x t q }
    ensures { (text : Bytes) (x : Setting) (seen : List ℕ) (t : Term) → Counts s.old text x facts seen at → at < 16777217
        → Shows s.old x t w → LeadsTo s.old x t q → CountedTerm s.old s.new text x facts seen t at result }
{
    if let Some(n) = counted(s, facts, w) {
        return further(at, n);
    }
    let to = count_arguments(s, facts, at, q);
    keep(s, facts, w, at, to);
    to
}

// What stands before a compound's first argument.
fn opening(s: &[u64], at: usize, p: usize) -> usize
    requires { (text : Bytes) × (f : Functor) × (at ≤ 16777217) × (p < length s.now) × Opens s.now text (rest_in (get_or s.now p 0)) f }
    ensures { (text : Bytes) (f : Functor) → Opens s.now text (rest_in (get_or s.now p 0)) f → result ≡ capped (at + length (opening_bytes f)) }
{
    match functor(s, p) {
        None => further(at, 1),
        Some(k) => further(further(at, name(s, k)), 1),
    }
}

// A compound with its arguments; "lists as `[a,b]` or `[a|T]`": a list goes on with the cell that is its tail.
#[cycle(count_arguments_count_compound)]
pub fn count_arguments(s: &mut [u64], facts: usize, at: usize, first: usize) -> usize
    requires { (text : Bytes) × (x : Setting) × (seen : List ℕ) × (n : ℕ) × (f : Functor) × (ts : Terms)
        × Counts s.old text x facts seen at × (at < 16777217) × StandsAt s.old x n f ts first }
    ensures { (text : Bytes) (x : Setting) (seen : List ℕ) (n : ℕ) (f : Functor) (ts : Terms)
        → Counts s.old text x facts seen at → at < 16777217 → StandsAt s.old x n f ts first
        → CountedTerm s.old s.new text x facts seen (Term.compound n f ts) at result }
{
    let mut to = opening(s, at, first);
    if to == CEILING {
        return to;
    }
    let mut p = first;
    let mut i = 1;
    loop {
        let a = word_at(s, p, i);
        let e = lead(s, facts, a);
        to = match look(e) {
            View::Compound(q) => count_compound(s, facts, to, a, q),
            _ => further(to, leaf(s, facts, e)),
        };
        let (_, next) = behind(s, facts, p, i);
        let Some((q, j)) = next else {
            return further(to, 1);
        };
        if CEILING - 1 <= to {
            return CEILING;
        }
        to += 1;
        p = q;
        i = j;
    }
}
