// The index of the clauses, built when the run begins.
ghost use Rattle.std.specs.Prelude.{◌≡◌, ◌≢◌, List, ℕ, ◌+◌, ◌≤◌, ◌<◌, length, get_or, set, IfSome, None};
ghost use Rattle.meaning.specs.Bytes.{Bytes};
ghost use Rattle.meaning.specs.Terms.{Job};
ghost use Rattle.term.specs.Jobs.{HoldsJob};
ghost use Rattle.term.specs.Words.{link_to};
ghost use Rattle.term.specs.Layout.{compounds_region, clause_stride, clause_record, clause_head};
ghost use Rattle.run_index.specs.Index.{kind_of, KindReads, bucket_of, functor_of as functor_of_meant, first_of, own_key, Indexed, IndexedFrom, IndexOnly};
ghost use Rattle.run_index.specs.Building.{HeadReads, HeadsRead, OneRead, Alike, ArgumentOf, ToldFits, Begun, NextIs, Telling, Put, Entering, Entered};

use crate::index::{bucket, find, key, kind, told};
use term::layout::{
    CLAUSE_FIRST, CLAUSE_KEY, CLAUSE_LATER, CLAUSE_MANY, CLAUSE_NEXT, CLAUSE_OPEN, CLAUSE_SAME,
    CLAUSE_STRIDE, CLAUSE_TOLD, CLAUSES, ITEM_WORDS, ITEMS, PROCEDURES,
};
use term::scratch::{argument, count, set_at, word_at};
use term::word::{index, link, linked, word};

// How many clauses of a procedure are tried in a line, with no argument that tells them apart.
const FEW: u64 = 8;

// A word of the record of clause k, and setting it.
fn record_word(s: &[u64], k: usize, i: usize) -> u64
    requires { (k < 128) × (i < clause_stride) × (compounds_region ≤ length s.now) }
    ensures { result ≡ get_or s.now (clause_record k + i) 0 }
{
    word_at(s, CLAUSES + CLAUSE_STRIDE * k, i)
}

fn set_word(s: &mut [u64], k: usize, i: usize, w: u64)
    requires { (k < 128) × (i < clause_stride) × (compounds_region ≤ length s.old) }
    ensures { s.new ≡ set s.old (clause_record k + i) w }
{
    set_at(s, CLAUSES + CLAUSE_STRIDE * k, i, w);
}

// Nothing is told apart yet, and no bucket has a clause.
fn begin(s: &mut [u64])
    requires { compounds_region ≤ length s.old }
    ensures { Begun s.old s.new }
{
    for k in 0..128 {
        set_word(s, k, CLAUSE_FIRST, 0);
        set_word(s, k, CLAUSE_TOLD, 0);
    }
}

// The functor's word of the head of clause k.
fn functor_of(s: &[u64], k: usize) -> u64
    requires { (k < 128) × (compounds_region ≤ length s.now) }
    ensures { result ≡ functor_of_meant s.now k }
{
    word_at(s, ITEMS + ITEM_WORDS * k, 0)
}

// What kind of term the i-th argument of the head of clause k is.
fn kind_at(s: &[u64], k: usize, i: usize) -> u64
    requires { (k < 128) × (i < 8) × (compounds_region ≤ length s.now) × KindReads s.now (get_or s.now (clause_head k + i) 0) }
    ensures { result ≡ kind_of s.now (get_or s.now (clause_head k + i) 0) }
{
    kind(s, argument(s, ITEMS + ITEM_WORDS * k, i))
}

// The first clause of the procedure of clause k.
fn first_of(s: &[u64], k: usize) -> usize
    requires { (k < 128) × (compounds_region ≤ length s.now) × HeadReads s.now k }
    ensures { result ≡ first_of s.now (functor_of_meant s.now k) }
{
    index(word_at(s, PROCEDURES - 8, index(functor_of(s, k)))) - 1
}

// The next clause of the procedure of clause k. Its number and its functor are looked at, so that nothing need be known of links.
fn next_of(s: &[u64], k: usize, clauses: usize) -> Option<usize>
    requires { (k < 128) × (clauses ≤ 128) × (compounds_region ≤ length s.now) }
    ensures { NextIs s.now clauses k result }
{
    let next = linked(record_word(s, k, CLAUSE_NEXT))?;
    if clauses <= next {
        return None;
    }
    if functor_of(s, next) != functor_of(s, k) {
        return None;
    }
    Some(next)
}

// Whether the i-th argument tells the heads of two clauses apart: at neither a writer, and not the same.
fn apart(s: &[u64], k: usize, m: usize, i: usize) -> bool
    requires { (k < 128) × (m < 128) × (i < 8) × (compounds_region ≤ length s.now)
        × KindReads s.now (get_or s.now (clause_head k + i) 0) × KindReads s.now (get_or s.now (clause_head m + i) 0) }
{
    let a = kind_at(s, k, i);
    let b = kind_at(s, m, i);
    a != 0 && b != 0 && a != b
}

// The first argument that tells the heads of two clauses of one procedure apart.
fn first_apart(s: &[u64], k: usize, m: usize) -> Option<usize>
    requires { Alike s.now k m }
    ensures { IfSome result (ArgumentOf s.now k) }
{
    for i in 1..=count(s, ITEMS + ITEM_WORDS * k) {
        if apart(s, k, m, i) {
            return Some(i);
        }
    }
    None
}

// The argument that tells two clauses of one procedure apart: the one by which the procedure is told apart so far, if it does; else the first that does, if any.
fn telling(s: &[u64], k: usize, m: usize, known: Option<usize>) -> Option<usize>
    requires { Alike s.now k m × IfSome known (ArgumentOf s.now k) }
    ensures { IfSome result (ArgumentOf s.now k) }
{
    if let Some(i) = known {
        if apart(s, k, m, i) {
            return known;
        }
    }
    first_apart(s, k, m).or(known)
}

// The procedure of clauses k and m is told apart by an argument that tells these two apart, if there is one.
fn tell_apart(s: &mut [u64], k: usize, m: usize)
    requires { (clauses : ℕ) × OneRead s.old clauses k × Alike s.old k m × ToldFits s.old clauses }
    ensures { (clauses : ℕ) → OneRead s.old clauses k → ToldFits s.old clauses
        → Telling s.old s.new clauses }
{
    let first = first_of(s, k);
    if let Some(i) = telling(s, k, m, told(s, first)) {
        set_word(s, first, CLAUSE_TOLD, word(i));
    }
}

// How many clauses of its procedure stand from a clause on, up to one more than FEW, if `next` is the next of them.
fn many(s: &[u64], next: Option<usize>) -> u64
    requires { IfSome next (λ k. k < 128) × (compounds_region ≤ length s.now) }
    ensures { 8 < result → next ≢ None }
{
    let Some(k) = next else {
        return 1;
    };
    let n = record_word(s, k, CLAUSE_MANY);
    if n <= FEW { n + 1 } else { n }
}

// Clause k and the next of its procedure are told apart, if there are many from clause k on.
fn tell(s: &mut [u64], k: usize, clauses: usize)
    requires { OneRead s.old clauses k × ToldFits s.old clauses }
    ensures { Telling s.old s.new clauses }
{
    let next = next_of(s, k, clauses);
    let n = many(s, next);
    set_word(s, k, CLAUSE_MANY, n);
    if n <= FEW {
        return;
    }
    if let Some(m) = next {
        tell_apart(s, k, m);
    }
}

// From the last clause to the first.
fn tell_all(s: &mut [u64], clauses: usize)
    requires { HeadsRead s.old clauses × ToldFits s.old clauses }
    ensures { Telling s.old s.new clauses }
{
    for k in (0..clauses).rev() {
        tell(s, k, clauses);
    }
}

// The key of clause k.
fn own_key(s: &[u64], k: usize) -> u64
    requires { (clauses : ℕ) × OneRead s.now clauses k × ToldFits s.now clauses }
    ensures { result ≡ own_key s.now k }
{
    let functor = functor_of(s, k);
    match told(s, first_of(s, k)) {
        Some(a) => key(functor, kind_at(s, k, a)),
        None => key(functor, 0),
    }
}

// Clause k gets its words of the index, and is the first in its key's bucket.
fn put(s: &mut [u64], k: usize, own: u64, same: Option<usize>, opened: Option<usize>)
    requires { (k < 128) × IfSome same (λ c. c < 128) × IfSome opened (λ c. c < 128) × (compounds_region ≤ length s.old) }
    ensures { Put s.old s.new k (bucket_of own) own (link_to same) (link_to opened) }
{
    let b = bucket(own);
    let later = record_word(s, b, CLAUSE_FIRST);
    set_word(s, k, CLAUSE_KEY, own);
    set_word(s, k, CLAUSE_SAME, link(same));
    set_word(s, k, CLAUSE_OPEN, link(opened));
    set_word(s, k, CLAUSE_LATER, later);
    set_word(s, b, CLAUSE_FIRST, link(Some(k)));
}

// Clause k joins the index, in which those behind it stand.
fn enter(s: &mut [u64], k: usize)
    requires { (clauses : ℕ) × Entering s.old clauses k }
    ensures { (clauses : ℕ) → Entering s.old clauses k → Entered s.old s.new clauses k }
{
    let own = own_key(s, k);
    let same = find(s, own);
    let opened = find(s, key(functor_of(s, k), 0));
    put(s, k, own, same, opened);
}

// From the last clause to the first.
fn enter_all(s: &mut [u64], clauses: usize)
    requires { HeadsRead s.old clauses × IndexedFrom s.old clauses clauses }
    ensures { Entered s.old s.new clauses 0 }
{
    for k in (0..clauses).rev() {
        enter(s, k);
    }
}

// The index of so many clauses.
pub fn build(s: &mut [u64], clauses: usize)
    requires { (names : List Bytes) × (j : Job) × HoldsJob s.old names j × (clauses ≡ length j.clauses) }
    ensures { (names : List Bytes) (j : Job) → HoldsJob s.old names j → clauses ≡ length j.clauses
        → IndexOnly s.old s.new × Indexed s.new clauses }
{
    begin(s);
    tell_all(s, clauses);
    enter_all(s, clauses);
}
