// The names of the text, numbered in order of first occurrence. A table of 1,024 words: for each name its first byte in the text and its
// length, two words a name; at 512 for each hash the last name that has it, plus one; and at 768 for each name the one before it with the
// same hash, plus one. So a name is compared only with those of its own hash.
ghost use Rattle.std.specs.Prelude.{◌≡◌, List, ◌+◌, ◌≤◌, ◌<◌, length, drop};
ghost use Rattle.std.proofs.Math.Seq.{slice};
ghost use Rattle.meaning.specs.Bytes.{Bytes, same as alike};
ghost use Rattle.meaning.specs.Items.{place_of};
ghost use Rattle.load_names.specs.Places.{Place, spellings};
ghost use Rattle.load_names.specs.Tables.{hash_of, StandsAt, NamesIn, stored_name};
ghost use Rattle.load_names.specs.Answers.{found, NameIs};

use crate::source::Source;
use term::word::{index, word};

// A hash below 256 of a spelling.
fn hash(spelling: &[u8]) -> usize
    ensures { result ≡ hash_of spelling.now }
{
    let mut h: usize = 0;
    for c in spelling {
        h = (h * 33 + usize::from(*c)) % 4_294_967_296;
    }
    h % 256
}

// Whether the place of this number is spelled so.
pub fn spelled(text: &[u8], table: &[u64], n: usize, spelling: &[u8]) -> bool
    requires stands_at { (f : Bytes) × StandsAt text.now table.now n f }
    ensures { (f : Bytes) → StandsAt text.now table.now n f → result ≡ alike spelling.now f }
{
    let start = index(table[2 * n]);
    let size = index(table[2 * n + 1]);
    spelling == &text[start..start + size]
}

// The number of the name that is spelled so, among those with this hash.
#[tactic(auto, using(crate::proofs::Hashes::hash_fits))]
fn find(text: &[u8], table: &[u64], h: usize, spelling: &[u8]) -> Option<usize>
    requires hashed { h ≡ hash_of spelling.now }
    requires names_in { (places : List Place) × NamesIn text.now places table.now }
    ensures { (places : List Place) → NamesIn text.now places table.now
        → found result ≡ place_of spelling.now (spellings places) }
{
    // Stays a number: a link is a word of the table, 0 for none.
    let mut next = index(table[512 + h]);
    while next != 0 {
        let n = next - 1;
        if spelled(text, table, n, spelling) {
            return Some(n);
        }
        next = index(table[768 + n]);
    }
    None
}

// A new name becomes the last one of its hash.
fn add(table: &mut [u64], count: usize, h: usize, start: usize, size: usize)
    requires { (count < 256) × (h < 256) × (length table.old ≡ 1024) }
    ensures { table.new ≡ stored_name table.old count h start size }
{
    let before = table[512 + h];
    table[2 * count] = word(start);
    table[2 * count + 1] = word(size);
    table[768 + count] = before;
    table[512 + h] = word(count + 1);
}

// Stays a table with its count beside it: fixed memory, lent by the loader; the count goes on by value in the cursor.
// The number of the name from a to e of the rest, which begins at an offset of the text, and how many names there are then; none where a new
// name passes the figure.
pub fn number(
    src: Source<'_>,
    table: &mut [u64],
    count: usize,
    a: usize,
    e: usize,
) -> Option<(usize, usize)>
    requires in_rest { (a < e) × (e ≤ length src.rest.now) × (e ≤ a + 31) }
    requires names_in { (places : List Place) × NamesIn src.text.now places table.old × (count ≡ length places) }
    ensures { (places : List Place) → NamesIn src.entry.text.now places table.old → count ≡ length places
        → NameIs src.entry.text.now places (src.entry.from + a) (slice a e src.entry.rest.now)
        table.old table.new result }
{
    let spelling = &src.rest[a..e];
    let h = hash(spelling);
    if let Some(n) = find(src.text, table, h, spelling) {
        return Some((n, count));
    }
    if 256 <= count {
        return None;
    }
    add(table, count, h, src.from + a, spelling.len());
    Some((count, count + 1))
}
