// A clause's guards, behind its full stop: "11 for a guard not in the table or with another variable", and the readers that they license.
ghost use Rattle.std.specs.Prelude.{◌≡◌, not, ◌&&◌, List, ℕ, ◌+◌, ◌*◌, ◌%◌, ◌/◌, ◌≤◌, ◌<◌, eqb, length, get_or, set, replicate};
ghost use Rattle.std.proofs.Math.Option.{some};
ghost use Rattle.meaning.specs.Bytes.{Bytes, all, when◌then◌else◌};
ghost use Rattle.meaning.specs.Terms.{Named, Guard};
ghost use Rattle.meaning.specs.Table.{Element, whole, bare, guard_table, as_guard, as_guards, of_the_head, is_reader};
ghost use Rattle.term.specs.Guards.{row_of, found_row};
ghost use Rattle.load_names.specs.Places.{Place};
ghost use Rattle.load_names.specs.Tables.{StandsAt};
ghost use Rattle.load_guards.specs.Judged.{Listed, Alone, NamedAt, row_number, ResolvedIs, Tests, TestAt, marks, marked, Licences, Counts};

use term::guards::{ARE_EQUAL, OTHERWISE, means_ground, row_of};
use term::layout::COMPOUND_WORDS;
use term::word::{NAME, PROBE, READER, TAGS, index, word};

// The row of the name of this number with so many arguments.
fn named(text: &[u8], names: &[u64], f: usize, count: usize) -> Option<usize>
    requires { (name : Bytes) × StandsAt text.now names.now f name }
    ensures { (name : Bytes) → StandsAt text.now names.now f name → result ≡ found_row (row_of guard_table name count) }
{
    let start = index(names[2 * f]);
    let size = index(names[2 * f + 1]);
    row_of(&text[start..start + size], count)
}

// The row of a bare name, if it is one: only `otherwise` stands alone.
fn alone_row(text: &[u8], names: &[u64], f: usize) -> Option<usize>
    requires { (name : Bytes) × StandsAt text.now names.now f name }
    ensures { (name : Bytes) → StandsAt text.now names.now f name → result ≡ found_row (row_number (as_guard (bare name))) }
{
    named(text, names, f, 0).filter(|row| *row == index(OTHERWISE))
}

// The row of the compound at a place, if it is one: a name before its argument.
fn before_row(text: &[u8], names: &[u64], s: &[u64], place: usize) -> Option<usize>
    requires { (g : Named) × NamedAt text.now names.now s.now place g }
    ensures { (g : Named) → NamedAt text.now names.now s.now place g → result ≡ found_row (row_number (as_guard (whole g))) }
{
    let functor = s[place];
    let f = index(functor / TAGS - 1);
    let count = index(functor % TAGS);
    named(text, names, f, count).filter(|row| *row < index(ARE_EQUAL))
}

// The row of an element by its word, if it is a guard: of a `==`, of a bare name or of a compound.
fn row_for(text: &[u8], names: &[u64], s: &[u64], w: u64) -> Option<usize>
    requires { (base : ℕ) × (known : List Place) × (e : Element) × Alone text.now names.now s.now base w known e }
    ensures { (base : ℕ) (known : List Place) (e : Element) → Alone text.now names.now s.now base w known e
        → result ≡ found_row (row_number (as_guard e)) }
{
    let rest = index(w / TAGS);
    match w % TAGS {
        PROBE => Some(index(ARE_EQUAL)),
        NAME => alone_row(text, names, rest),
        _ => before_row(text, names, s, rest),
    }
}

// A guard's word: its row and its compound's place, which an element's word has too. `otherwise` has no compound; it has the item's first place.
fn test_word(row: usize, w: u64, base: usize) -> u64
    requires { (row ≤ 7) × (base < 144115188075855872) }
    ensures { result ≡ row + 8 * (when eqb row 6 then 8 * base else w / 8) }
{
    if row == index(OTHERWISE) {
        return word(row) + TAGS * word(COMPOUND_WORDS * base);
    }
    word(row) + TAGS * (w / TAGS)
}

// The elements before the bar, whose words these are, as guards: their words are set from a place of the scratch on, if the table has every one.
pub fn resolve(
    text: &[u8],
    names: &[u64],
    s: &mut [u64],
    words: &[u64],
    base: usize,
    place: usize,
) -> bool
    requires s_len_bound { length s.old < 1152921504606846976 }
    requires listed { (known : List Place) × (es : List Element) × Listed text.now names.now s.old words.now (length words.now) base place known es }
    ensures { (known : List Place) (es : List Element) → Listed text.now names.now s.old words.now (length words.now) base place known es
        → ResolvedIs s.old s.new (length words.now) base place known es result }
{
    for (i, &w) in words.iter().enumerate() {
        let Some(row) = row_for(text, names, s, w) else {
            return false;
        };
        s[place + i] = test_word(row, w, base);
    }
    true
}

// The reader that a guard licenses, if there is one, by the guard's word: "a reader that is itself the argument of a ground, integer or constant guard".
fn grounded(s: &[u64], w: u64) -> Option<usize>
    requires s_len_bound { length s.now < 1152921504606846976 }
    requires by_index { (base : ℕ) × (known : List Place) × (g : Guard) × TestAt s.now w base known g }
    ensures { (base : ℕ) (known : List Place) (g : Guard) → TestAt s.now w base known g
        → (m : ℕ) → (g.row.means_ground && is_reader m g.arguments) ≡ marks m result }
{
    if means_ground(index(w % TAGS)) {
        let argument = s[index(w / TAGS) + 1];
        if argument % TAGS == READER {
            return Some(index(argument / TAGS));
        }
    }
    None
}

// A reader's number is marked; there are 16 pairs.
fn mark(licensed: &mut [u64], m: usize)
    requires { length licensed.old ≡ 16 }
    ensures { licensed.new ≡ marked licensed.old m }
{
    if m < 16 {
        licensed[m] = 1;
    }
}

// The readers that the n guards license whose words stand from a place on.
pub fn licences(s: &[u64], place: usize, n: usize, licensed: &mut [u64])
    requires licensed_value { (licensed.old ≡ replicate 16 0) × (length s.now < 1152921504606846976) }
    requires by_index { (base : ℕ) × (known : List Place) × (gs : List Guard) × Tests s.now place n base known gs }
    ensures { (base : ℕ) (known : List Place) (gs : List Guard) → Tests s.now place n base known gs → Licences licensed.new gs }
{
    for i in 0..n {
        if let Some(m) = grounded(s, s[place + i]) {
            mark(licensed, m);
        }
    }
}

// "A guard's arguments are terms whose only variables are readers of writers in the head": whether there is another variable, by how often each half occurs
// in the guards (in the item's table) and in the head.
pub fn foreign(item: &[u64], heads: &[u64], pairs: usize) -> bool
    requires { (length item.now ≡ 64) × (length heads.now ≡ 32) × (pairs ≤ 16) }
    ensures { (head : Named) (es : List Element) (gs : List Guard) → Counts item.now heads.now head es → as_guards es ≡ some gs
        → result ≡ not (all (of_the_head pairs head) gs) }
{
    (0..pairs).any(|n| item[32 + n] != 0 || item[48 + n] != 0 && heads[n] == 0)
}
