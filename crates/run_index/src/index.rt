// The words of the index: of a clause its key, and of keys the first clause.
ghost use Rattle.std.specs.Prelude.{◌≡◌, List, ℕ, ◌<◌, ◌≤◌, length, get_or};
ghost use Rattle.term.specs.Words.{link_to};
ghost use Rattle.term.specs.Layout.{compounds_region, told_word};
ghost use Rattle.run_index.specs.Index.{kind_of, KindReads, key_of, bucket_of, FirstOf, HasKey, IndexedFrom, TellsApart};

use term::layout::{CLAUSE_FIRST, CLAUSE_KEY, CLAUSE_LATER, CLAUSE_STRIDE, CLAUSE_TOLD, CLAUSES};
use term::scratch::word_at;
use term::word::{COMPOUND, READER, TAGS, WRITER, index, linked};

// How many buckets the keys have, and how many words tell an argument: one in each clause's record.
pub const BUCKETS: u64 = 128;

// What a key is counted below.
const KEYS: u64 = 1099511627776;

// What tells a term apart from others at the same place: a constant's word, a compound's functor; 0 for a writer, and READER for a reader.
// Stays a number: a key holds it, and keys are words of the scratch, compared as they stand.
pub fn kind(s: &[u64], w: u64) -> u64
    requires { KindReads s.now w }
    ensures { result ≡ kind_of s.now w }
{
    match w % TAGS {
        COMPOUND => COMPOUND + TAGS * word_at(s, index(w / TAGS), 0),
        WRITER => 0,
        READER => READER,
        _ => w,
    }
}

// The key of a head: its functor, and the kind of its argument that is told apart.
pub fn key(functor: u64, kind: u64) -> u64
    requires { functor ≤ 2054 }
    ensures { result ≡ key_of functor kind }
{
    functor * KEYS + kind % KEYS
}

// A key's bucket.
pub fn bucket(key: u64) -> usize
    ensures { result ≡ bucket_of key }
{
    index((key / TAGS + 5 * (key / KEYS)) % BUCKETS)
}

// The argument by which a procedure is told apart, by its first clause.
pub fn told(s: &[u64], first: usize) -> Option<usize>
    requires { (first < 128) × (compounds_region ≤ length s.now) }
    ensures { TellsApart (get_or s.now (told_word first) 0) result }
{
    match index(word_at(s, CLAUSES + CLAUSE_STRIDE * first, CLAUSE_TOLD)) {
        0 => None,
        a => Some(a),
    }
}

// The first clause with a key.
pub fn find(s: &[u64], key: u64) -> Option<usize>
    requires { ((from : ℕ) × (clauses : ℕ) × IndexedFrom s.now from clauses) × (compounds_region ≤ length s.now) }
    ensures { (from clauses : ℕ) → IndexedFrom s.now from clauses → FirstOf (HasKey s.now key) from clauses (link_to result) }
{
    let mut next = linked(word_at(s, CLAUSES + CLAUSE_STRIDE * bucket(key), CLAUSE_FIRST));
    while let Some(k) = next {
        let at = CLAUSES + CLAUSE_STRIDE * k;
        if word_at(s, at, CLAUSE_KEY) == key {
            return next;
        }
        next = linked(word_at(s, at, CLAUSE_LATER));
    }
    None
}
