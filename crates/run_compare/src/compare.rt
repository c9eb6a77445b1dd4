// Two compounds against each other, by their functors and then their arguments: the table of document 01 (crate `run_table`) at each place.
ghost use Rattle.std.specs.Prelude.{◌≡◌, ℕ, ◌+◌, ◌*◌, ◌%◌, ◌≤◌, length, get_or};
ghost use Rattle.meaning.specs.Terms.{Functor, compound, Terms, count as size};
ghost use Rattle.term.specs.Setting.{Setting};
ghost use Rattle.term.specs.Words.{compound_word, tag_in};
ghost use Rattle.run_compare.specs.Compare.{Template, Against, AllAgainst, Answers, place_outcome, places_outcome};
ghost use Rattle.run_compare.specs.Same.{same_word, LastOpen};

use run_chains::follow::follow;
use run_table::table::{PlaceResult, differ, table};
use term::scratch::{argument, count};
use term::word::{View, look};

// Comparing tells how many of the goal's pairs are noted so far: those that are given a term, and those whose readers are waited on; None where a place
// fails.

// Two compounds: their functors and numbers of arguments, and then their arguments.
#[cycle(compounds_places)]
fn compounds(
    s: &mut [u64],
    values: usize,
    links: usize,
    p: usize,
    q: usize,
    n: usize,
) -> Option<usize>
    requires { (x : Setting) × (y : Template) × (lo : ℕ) × (hi : ℕ) × (m : ℕ) × (g : Functor) × (us : Terms) × (l : ℕ) × (f : Functor) × (ts : Terms)
        × Against s.old x y values links lo hi (compound m g us) (compound l f ts) (compound_word p) (compound_word q) n }
    ensures { (x : Setting) (y : Template) (lo hi m : ℕ) (g : Functor) (us : Terms) (l : ℕ) (f : Functor) (ts : Terms)
        → Against s.old x y values links lo hi (compound m g us) (compound l f ts) (compound_word p) (compound_word q) n
        → Answers s.old s.new x y n lo hi 1 (place_outcome x links (compound m g us) (compound l f ts)) result }
{
    if differ(s, p, q) {
        return None;
    }
    places(s, values, links, p, q, n)
}

// Whether both are the same constant.
fn same(h: u64, a: u64) -> bool
    ensures { result ≡ same_word h a }
{
    h == a && matches!(look(h), View::Integer(_) | View::Name(_) | View::Empty)
}

// How many arguments of two compounds are to be compared: those at the end that are the same constants agree and give nothing.
fn open(s: &[u64], p: usize, q: usize) -> usize
    requires { (p + 8 ≤ length s.now) × (q + 8 ≤ length s.now) }
    ensures { LastOpen s.now p q (tag_in (get_or s.now p 0)) result }
{
    for k in (1..=count(s, p)).rev() {
        if !same(argument(s, p, k), argument(s, q, k)) {
            return k;
        }
    }
    0
}

// "From left to right and depth first", through "all places" up to the first that fails. It goes on to two compounds that stand last in its loop.
#[cycle(compounds_places)]
pub fn places(
    s: &mut [u64],
    values: usize,
    links: usize,
    first: usize,
    second: usize,
    n: usize,
) -> Option<usize>
    requires { (x : Setting) × (y : Template) × (m : ℕ) × (g : Functor) × (us : Terms) × (lo : ℕ) × (hi : ℕ) × (l : ℕ) × (f : Functor) × (ts : Terms)
        × AllAgainst s.old x y values links m g us lo hi l f ts first second n }
    ensures { (x : Setting) (y : Template) (m : ℕ) (g : Functor) (us : Terms) (lo hi l : ℕ) (f : Functor) (ts : Terms)
        → AllAgainst s.old x y values links m g us lo hi l f ts first second n
        → Answers s.old s.new x y n lo hi (size us) (places_outcome x links us ts) result }
{
    let mut p = first;
    let mut q = second;
    let mut k = open(s, p, q);
    let mut noted = n;
    let mut i = 1;
    'arguments: while i <= k {
        let h = argument(s, p, i);
        let a = argument(s, q, i);
        let w = follow(s, values, links, a);
        match table(s, h, w, noted) {
            PlaceResult::Noted(m) => noted = m,
            PlaceResult::Fails => return None,
            PlaceResult::Below(b, c) => {
                if i == k {
                    if differ(s, b, c) {
                        return None;
                    }
                    p = b;
                    q = c;
                    k = open(s, p, q);
                    i = 1;
                    continue 'arguments;
                }
                noted = compounds(s, values, links, b, c, noted)?;
            }
        }
        i += 1;
    }
    Some(noted)
}
