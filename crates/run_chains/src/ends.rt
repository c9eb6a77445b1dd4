// The ends to which the arguments of a goal lead, kept of their pairs for the next time that the goal is taken.
ghost use Rattle.std.specs.Prelude.{ℕ};
ghost use Rattle.meaning.specs.Terms.{Half, Functor, Term, Terms, variable};
ghost use Rattle.term.specs.Setting.{Setting};
ghost use Rattle.run_chains.specs.Follow.{PairAt, KeepsOf, Keeps, EndsKept};

use crate::follow::follow;
use term::layout::ENDS_AFTER;
use term::scratch::{argument, count, set_at, word_at};
use term::word::{READER, TAGS, View, look};

// The end to which a variable with the word w leads, kept of its pair where the value is a reader.
fn keep(s: &mut [u64], values: usize, links: usize, w: u64, p: usize)
    requires { (x : Setting) × (h : Half) × (n : ℕ) × KeepsOf s.old x values links (variable h n) w × PairAt s.old x values links n p }
    ensures { (x : Setting) (h : Half) (n : ℕ) → KeepsOf s.old x values links (variable h n) w → PairAt s.old x values links n p
        → EndsKept s.old s.new x values links }
{
    let v = word_at(s, values, p);
    if v % TAGS != READER {
        return;
    }
    let e = follow(s, values, links, w);
    if e == v {
        return;
    }
    set_at(s, values + ENDS_AFTER * links, p, e);
}

// The same of any term.
fn keep_end(s: &mut [u64], values: usize, links: usize, w: u64)
    requires { (x : Setting) × (t : Term) × KeepsOf s.old x values links t w }
    ensures { (x : Setting) (t : Term) → KeepsOf s.old x values links t w → EndsKept s.old s.new x values links }
{
    match look(w) {
        View::Writer(p) | View::Reader(p) => keep(s, values, links, w, p),
        _ => {}
    }
}

// Of each argument of the compound at a place.
pub fn keep_ends(s: &mut [u64], values: usize, links: usize, goal: usize)
    requires { (x : Setting) × (l : ℕ) × (f : Functor) × (ts : Terms) × Keeps s.old x values links l f ts goal }
    ensures { (x : Setting) (l : ℕ) (f : Functor) (ts : Terms) → Keeps s.old x values links l f ts goal
        → EndsKept s.old s.new x values links }
{
    for i in 1..=count(s, goal) {
        let w = argument(s, goal, i);
        keep_end(s, values, links, w);
    }
}
