// A clause's terms renamed apart: its pairs come next, and its compounds are copied one behind the other.
ghost use Rattle.std.specs.Prelude.{◌≡◌, ℕ, ◌+◌, ◌*◌, ◌/◌, ◌%◌, ◌≤◌, ◌<◌, length};
ghost use Rattle.meaning.specs.Terms.{Term, compound, Functor, Terms};
ghost use Rattle.term.specs.Words.{view, compound_word, packed, tag_in, rest_in};
ghost use Rattle.run_effects.specs.Build.{PairFits, moved_word, Item, Original, Aside, Laid, Copied};

use term::scratch::{argument, count};
use term::word::{COMPOUND, READER, TAGS, View, WRITER, look, word};

// The word of one half of a pair, or of a compound, by its tag and place.
fn placed(tag: u64, place: usize) -> u64
    requires { (tag < 8) × (place ≤ 1152921504606846976) }
    ensures { result ≡ packed tag place }
{
    tag + TAGS * word(place)
}

// The word of the copy of a term that is no compound.
fn moved(pair: usize, h: u64) -> u64
    requires { PairFits pair (view (tag_in h) (rest_in h)) }
    ensures { result ≡ moved_word pair h (view (tag_in h) (rest_in h)) }
{
    match look(h) {
        View::Writer(x) => placed(WRITER, pair + x),
        View::Reader(x) => placed(READER, pair + x),
        _ => h,
    }
}

// The term of an item, copied: its word to a place, its compounds from another on, its pairs from a pair on. The place behind the compounds.
pub fn copy(s: &mut [u64], pair: usize, at: usize, to: usize, h: u64) -> usize
    requires { (x : Item) × (t : Term) × Original s.old x pair to h t × Aside s.old at to t }
    ensures { (x : Item) (t : Term) → Original s.old x pair to h t → Aside s.old at to t
        → Copied s.old s.new x pair at to t result }
{
    match look(h) {
        View::Compound(p) => copy_compound(s, pair, at, to, p),
        _ => {
            s[at] = moved(pair, h);
            to
        }
    }
}

// A compound: its word, and then its arguments' copies.
#[cycle(copy_arguments_copy_compound)]
fn copy_compound(s: &mut [u64], pair: usize, at: usize, to: usize, p: usize) -> usize
    requires { (x : Item) × (n : ℕ) × (f : Functor) × (ts : Terms) × Original s.old x pair to (compound_word p) (compound n f ts)
        × Aside s.old at to (compound n f ts) }
    ensures { (x : Item) (n : ℕ) (f : Functor) (ts : Terms) → Original s.old x pair to (compound_word p) (compound n f ts)
        → Aside s.old at to (compound n f ts) → Copied s.old s.new x pair at to (compound n f ts) result }
{
    s[at] = placed(COMPOUND, to);
    copy_arguments(s, pair, to, p)
}

// A compound with its list of arguments.
#[cycle(copy_arguments_copy_compound)]
pub fn copy_arguments(s: &mut [u64], pair: usize, to: usize, p: usize) -> usize
    requires { (x : Item) × (n : ℕ) × (f : Functor) × (ts : Terms) × Original s.old x pair to (compound_word p) (compound n f ts) }
    ensures { (x : Item) (n : ℕ) (f : Functor) (ts : Terms) → Original s.old x pair to (compound_word p) (compound n f ts)
        → Laid s.old s.new x pair to (compound n f ts) result }
{
    let k = count(s, p);
    s[to] = s[p];
    let mut free = to + 1 + k;
    for i in 1..=k {
        let a = argument(s, p, i);
        match look(a) {
            View::Compound(q) => {
                free = copy_compound(s, pair, to + i, free, q);
            }
            _ => {
                s[to + i] = moved(pair, a);
            }
        }
    }
    free
}
