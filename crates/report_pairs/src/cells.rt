// A term in the scratch as the report reads it: the end of its chain, its compound's functor, and what stands behind an argument.
ghost use Rattle.std.specs.Prelude.{◌≡◌, ℕ, ◌+◌, ◌<◌, length, get_or, MatchOption};
ghost use Rattle.meaning.specs.Bytes.{Bytes};
ghost use Rattle.meaning.specs.Terms.{Functor, cell, named, Term, Terms, more};
ghost use Rattle.term.specs.Setting.{Setting};
ghost use Rattle.term.specs.Words.{rest_in};
ghost use Rattle.report_pairs.specs.Facts.{Readable, Led};
ghost use Rattle.report_pairs.specs.Walk.{Position, Found};

use crate::ends::end;
use term::scratch::{count, word_at};
use term::word::{TAGS, View, index, look};

// The number of the name of a compound's functor; none for a list cell.
pub fn functor(s: &[u64], p: usize) -> Option<usize>
    requires { p < length s.now }
    ensures { MatchOption result (rest_in (get_or s.now p 0) ≡ 0) (λ k. rest_in (get_or s.now p 0) ≡ k + 1) }
{
    index(s[p] / TAGS).checked_sub(1)
}

// What stands behind an argument of a compound: a byte, and then an argument, by its compound's place and its number, if the byte is not the last.
pub type Next = (u8, Option<(usize, usize)>);

// Behind the i-th of the arguments in parentheses.
fn behind_argument(s: &[u64], p: usize, i: usize) -> Next
    requires { (x : Setting) × (f : Bytes) × (j : ℕ) × (u : Term) × (us : Terms) × Position s.now x p i j (named f) u us }
    ensures { (x : Setting) (f : Bytes) (j : ℕ) (u : Term) (us : Terms) → Position s.now x p i j (named f) u us
        → Found s.now x (named f) j us result }
{
    if i < count(s, p) {
        return (b',', Some((p, i + 1)));
    }
    (b')', None)
}

// Behind the element of a list whose tail is this term: "tails followed".
fn behind_element(s: &[u64], p: usize, t: u64) -> Next
    requires { (x : Setting) × (u : Term) × (v : Term) × Position s.now x p 1 0 cell u (more v Terms.end) × Led s.now x v t }
    ensures { (x : Setting) (u v : Term) → Position s.now x p 1 0 cell u (more v Terms.end) → Led s.now x v t
        → Found s.now x cell 0 (more v Terms.end) result }
{
    match look(t) {
        View::Empty => (b']', None),
        View::Compound(q) => match functor(s, q) {
            None => (b',', Some((q, 1))),
            Some(_) => (b'|', Some((p, 2))),
        },
        _ => (b'|', Some((p, 2))),
    }
}

// Behind the i-th of the arguments of the compound at a place, from 1 on.
pub fn behind(s: &[u64], facts: usize, p: usize, i: usize) -> Next
    requires { (text : Bytes) × (x : Setting) × (f : Functor) × (j : ℕ) × (u : Term) × (us : Terms)
        × Readable s.now text x facts × Position s.now x p i j f u us }
    ensures { (text : Bytes) (x : Setting) (f : Functor) (j : ℕ) (u : Term) (us : Terms)
        → Readable s.now text x facts → Position s.now x p i j f u us
        → Found s.now x f j us result }
{
    match functor(s, p) {
        Some(_) => behind_argument(s, p, i),
        None if i == 1 => behind_element(s, p, end(s, facts, word_at(s, p, 2))),
        None => (b']', None),
    }
}
