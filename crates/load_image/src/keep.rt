// What is kept of a text beside its terms: where names and variables first stand, and the clauses of each procedure in text order.
ghost use Rattle.std.specs.Prelude.{◌≡◌, ℕ, ◌+◌, ◌*◌, ◌≤◌, ◌<◌, length, get_or, take};
ghost use Rattle.term.specs.Layout.{queries_region};
ghost use Rattle.load_image.specs.Kept.{pairs_kept};
ghost use Rattle.load_image.specs.Image.{linked};

use term::layout::{CLAUSE_STRIDE, CLAUSES, PROCEDURES};
use term::word::{index, word};

// The first so many places of a table, which count from an offset of the text: first byte and length of each, two words a place.
pub fn keep_places(s: &mut [u64], table: &[u64], from: usize, place: usize, count: usize)
    requires count_in_bounds { (place + 2 * count ≤ length s.old) × (2 * count ≤ length table.now) }
    requires by_index { (n : ℕ) → n < count → from + get_or table.now (2 * n) 0 < 18446744073709551616 }
    ensures { s.new ≡ pairs_kept table.now from place count s.old }
{
    for n in 0..count {
        s[place + 2 * n] = word(from) + table[2 * n];
        s[place + 2 * n + 1] = table[2 * n + 1];
    }
}

// The clauses of each procedure linked in text order, the last one first: each becomes the first of its procedure.
pub fn link(s: &mut [u64], heads: &[u64], clauses: usize)
    requires clauses_in_bounds { (clauses ≤ length heads.now) × (clauses ≤ 128) × (queries_region ≤ length s.old) }
    requires by_index { (k : ℕ) → k < clauses → (8 ≤ get_or heads.now k 0) × (get_or heads.now k 0 < 2056) }
    ensures { s.new ≡ linked 0 (take clauses heads.now) s.old }
{
    for k in (0..clauses).rev() {
        let first = PROCEDURES + index(heads[k]) - 8;
        s[CLAUSES + CLAUSE_STRIDE * k] = s[first];
        s[first] = word(k + 1);
    }
}
