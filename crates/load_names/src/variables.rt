// The variables of an item, numbered in order of first occurrence of either half. A table of 64 words: for each variable its first byte in
// the rest and its length, two words a variable; at 32 how often its writer has occurred, at 48 its reader, where 2 stands for more too.
ghost use Rattle.std.specs.Prelude.{◌≡◌, List, ◌+◌, ◌≤◌, ◌<◌, length, get_or};
ghost use Rattle.std.proofs.Math.Seq.{slice};
ghost use Rattle.meaning.specs.Items.{place_of};
ghost use Rattle.load_names.specs.Places.{Place, spellings};
ghost use Rattle.load_names.specs.Tables.{VariablesIn, stored_variable, counted_half};
ghost use Rattle.load_names.specs.Answers.{found, VariableIs};

use crate::names::spelled;
use term::word::word;

// The number of the variable that is spelled so.
pub fn find(rest: &[u8], table: &[u64], count: usize, spelling: &[u8]) -> Option<usize>
    requires variables_in { (places : List Place) × VariablesIn rest.now places table.now × (count ≡ length places) }
    ensures { (places : List Place) → VariablesIn rest.now places table.now → count ≡ length places
        → found result ≡ place_of spelling.now (spellings places) }
{
    for n in 0..count {
        if spelled(rest, table, n, spelling) {
            return Some(n);
        }
    }
    None
}

// A new variable's place.
fn add(table: &mut [u64], count: usize, start: usize, size: usize)
    requires { (count < 16) × (length table.old ≡ 64) }
    ensures { table.new ≡ stored_variable table.old count start size }
{
    table[2 * count] = word(start);
    table[2 * count + 1] = word(size);
}

// One occurrence more of a half, counted up to 2.
fn occurs(table: &mut [u64], place: usize)
    requires { (place < length table.old) × (get_or table.old place 0 ≤ 2) }
    ensures { table.new ≡ counted_half table.old place }
{
    table[place] = 2.min(table[place] + 1);
}

// Stays a table with its count beside it: fixed memory, lent by the loader; the count goes on by value in the cursor.
// Stays a number for the half: it is the place from which on the table counts it, so an enum would only be turned back into it here.
// The number of the variable from a to e, one of whose halves occurs here, 32 for the writer and 48 for the reader, and how many variables
// there are then; none where a new one passes the figure.
pub fn number(
    rest: &[u8],
    table: &mut [u64],
    count: usize,
    half: usize,
    a: usize,
    e: usize,
) -> Option<(usize, usize)>
    requires a_lt_e { (a < e) × (e ≤ length rest.now) × (32 ≤ half) × (half ≤ 48) }
    requires variables_in { (places : List Place) × VariablesIn rest.now places table.old × (count ≡ length places) }
    ensures { (places : List Place) → VariablesIn rest.now places table.old → count ≡ length places
        → VariableIs rest.now places half a (slice a e rest.now) table.old table.new result }
{
    if let Some(n) = find(rest, table, count, &rest[a..e]) {
        occurs(table, half + n);
        return Some((n, count));
    }
    if 16 <= count {
        return None;
    }
    add(table, count, a, e - a);
    occurs(table, half + count);
    Some((count, count + 1))
}
