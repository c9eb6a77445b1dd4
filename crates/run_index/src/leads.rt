// What is left to try for a goal.
ghost use Rattle.std.specs.Prelude.{◌≡◌, List, ℕ, ◌+◌, ◌<◌, ◌≤◌, length, Some};
ghost use Rattle.meaning.specs.Bytes.{Bytes};
ghost use Rattle.meaning.specs.Terms.{Named, Job};
ghost use Rattle.term.specs.Words.{link_to};
ghost use Rattle.term.specs.Layout.{compounds_region, clause_record};
ghost use Rattle.run_index.specs.Index.{key_of, functor_of, FirstOf, HasKey, Indexed};
ghost use Rattle.run_index.specs.Left.{InOrder, Sought, LeadsAre, FurtherIs};

use crate::index::{find, key, kind, told};
use term::layout::{
    CLAUSE_KEY, CLAUSE_NEXT, CLAUSE_OPEN, CLAUSE_SAME, CLAUSE_STRIDE, CLAUSES, FOLLOWED,
};
use term::scratch::word_at;
use term::word::{READER, linked};

// What is left to try: two chains of clauses, each by its first clause, if it has one, and the word of a record by which it goes on. The clause to try next is
// the first of the first chain; the other chain has none before it.
// Stays a number, how a chain goes on: it is the place of a word in each clause's record, and is added to the record's as it stands.
#[derive(Clone, Copy)]
pub struct Leads {
    pub next: Option<usize>,
    pub link: usize,
    pub other: Option<usize>,
    pub onward: usize,
}

// The first clause from clause k on, of its procedure, that has a writer at the place that is told apart.
fn open_from(s: &[u64], k: usize, functor: u64) -> Option<usize>
    requires { (k < 128) × (functor ≤ 2054) × (compounds_region ≤ length s.now) }
    ensures { (clauses : ℕ) → Indexed s.now clauses → k < clauses → functor ≡ functor_of s.now k
        → FirstOf (HasKey s.now (key_of functor 0)) k clauses (link_to result) }
{
    let at = CLAUSES + CLAUSE_STRIDE * k;
    if word_at(s, at, CLAUSE_KEY) == key(functor, 0) {
        return Some(k);
    }
    linked(word_at(s, at, CLAUSE_OPEN))
}

// Two chains, the one with the earlier clause first.
fn in_order(a: Option<usize>, link: usize, b: Option<usize>, onward: usize) -> Leads
    ensures { InOrder (link_to a) link (link_to b) onward result }
{
    let straight = Leads {
        next: a,
        link,
        other: b,
        onward,
    };
    let swapped = Leads {
        next: b,
        link: onward,
        other: a,
        onward: link,
    };
    match (a, b) {
        (Some(first), Some(second)) => { if second < first { swapped } else { straight } }
        (None, Some(_)) => swapped,
        (_, None) => straight,
    }
}

// The clauses to try for the goal with this functor, whose arguments were followed; `first` is the first of its procedure.
pub fn to_try(s: &[u64], functor: u64, first: Option<usize>) -> Leads
    requires { (names : List Bytes) × (j : Job) × (goal : Named) × Sought s.now names j goal functor (link_to first) }
    ensures { (names : List Bytes) (j : Job) (goal : Named) → Sought s.now names j goal functor (link_to first)
        → LeadsAre s.now names j goal functor result }
{
    let all = Leads {
        next: first,
        link: CLAUSE_NEXT,
        other: None,
        onward: CLAUSE_NEXT,
    };
    let Some(k) = first else {
        return all;
    };
    let Some(a) = told(s, k) else {
        return all;
    };
    let sought = kind(s, word_at(s, FOLLOWED, a));
    if sought <= READER {
        return all;
    }
    let keyed = find(s, key(functor, sought));
    let open = open_from(s, k, functor);
    in_order(keyed, CLAUSE_SAME, open, CLAUSE_OPEN)
}

// What is left when clause k, the next, was tried.
pub fn further(s: &[u64], k: usize, l: Leads) -> Leads
    requires { (l.next ≡ Some k) × (clause_record k + l.link < length s.now) }
    ensures { FurtherIs s.now k l result }
{
    let a = linked(word_at(s, CLAUSES + CLAUSE_STRIDE * k, l.link));
    in_order(a, l.link, l.other, l.onward)
}
