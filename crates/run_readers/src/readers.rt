// The set of the readers that a step has met: the list of their pairs, and beside it, for each pair, its rank: where it stands in the list. A pair is in
// the list exactly if at its rank stands this pair: so nothing has to be cleared when a step begins, and the set is emptied by counting from 0 again.
ghost use Rattle.std.specs.Prelude.{◌≡◌, [], ◌∷◌, ℕ, ◌+◌, ◌*◌, ◌≤◌, ◌<◌, length, get_or};
ghost use Rattle.term.specs.Layout.{woken_part, gift_pair, gift_term};
ghost use Rattle.run_readers.specs.Readers.{asked_in, is_some, Readers, Met};

use term::layout::GIFTS;
use term::scratch::{set_at, word_at};
use term::word::{index, word};

// Whether one of the n pairs that a trial noted is one whose reader it waits on: no term stands beside it.
pub fn asks(s: &[u64], n: usize) -> bool
    requires { (woken_part ≤ length s.now) × (n ≤ 192) }
    ensures { result ≡ is_some (asked_in s.now n) }
{
    for i in 0..n {
        if word_at(s, GIFTS + 1, 2 * i) == 0 {
            return true;
        }
    }
    false
}

// A pair joins the n that the list has, unless it is among them. How many it has then.
pub fn meet(s: &mut [u64], readers: usize, pairs: usize, n: usize, p: usize) -> usize
    requires { Readers s.old readers pairs n × (p < pairs) }
    ensures { Met s.old s.new readers pairs n (p ∷ []) result }
{
    let rank = index(word_at(s, readers + pairs, p));
    if rank < n {
        if index(word_at(s, readers, rank)) == p {
            return n;
        }
    }
    set_at(s, readers, n, word(p));
    set_at(s, readers + pairs, p, word(n));
    n + 1
}

// The readers that a trial waits on, among the n pairs that it noted, join the list, which has so many.
pub fn meet_all(s: &mut [u64], readers: usize, pairs: usize, first: usize, n: usize) -> usize
    requires { Readers s.old readers pairs first × (woken_part ≤ readers) × (n ≤ 192)
        × ((i : ℕ) → i < n → get_or s.old (gift_term i) 0 ≡ 0 → get_or s.old (gift_pair i) 0 < pairs) }
    ensures { Met s.old s.new readers pairs first (asked_in s.old n) result }
{
    let mut met = first;
    for i in 0..n {
        if word_at(s, GIFTS + 1, 2 * i) == 0 {
            met = meet(s, readers, pairs, met, index(word_at(s, GIFTS, 2 * i)));
        }
    }
    met
}
