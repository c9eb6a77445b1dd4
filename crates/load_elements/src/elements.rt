// Elements, each read into the item's compounds: one, or up to eight with commas between, up to the bar or the full stop.
// Stays three slices, scratch, names and item: tried as one struct of `&mut`s, and what they hold is lost where the loan ends.
ghost use Rattle.std.specs.Prelude.{◌≡◌, List, ℕ, ◌+◌, ◌*◌, ◌≤◌, ◌<◌, length, set};
ghost use Rattle.meaning.specs.Terms.{Term};
ghost use Rattle.term.specs.Layout.{item_end, item_place};
ghost use Rattle.term.specs.Words.{probe_word};
ghost use Rattle.load_names.specs.Places.{Place};
ghost use Rattle.load_openings.specs.Reading.{Stands};
ghost use Rattle.load_elements.specs.Sides.{Stored, alone, RightIs, NinthIs};
ghost use Rattle.load_elements.specs.Elements.{ElementIs};
ghost use Rattle.load_elements.specs.Listed.{ElementsAre};

use crate::answer::Elements;
use load_names::source::Source;
use load_openings::cursor::{Cursor, Unread};
use load_terms::terms::term;
use load_tokens::next::{next_is, next_of, starts};
use term::layout::{COMPOUND_WORDS, ITEM_COMPOUNDS};
use term::word::{PROBE, TAGS, View, look, word};

// Whether a term that no `==` follows is an element: a compound with a name, or a bare name. A list cell's own word is its number of arguments alone.
fn stands_alone(s: &[u64], w: u64) -> bool
    requires { (names : List Place) × (base : ℕ) × (t : Term) × Stored s.now names base w t }
    ensures { (names : List Place) (base : ℕ) (t : Term) → Stored s.now names base w t → result ≡ alone t }
{
    match look(w) {
        View::Name(_) => true,
        View::Compound(place) => TAGS <= s[place],
        View::Nothing | View::Writer(_) | View::Reader(_) | View::Integer(_) | View::Empty => false,
    }
}

// The words of the two sides of the `==` that is the compound n of the item, behind its place.
fn store_sides(s: &mut [u64], base: usize, n: usize, left: u64, right: u64)
    requires { (item_place base n + 2 < length s.old) × (length s.old < 1152921504606846976) }
    ensures { s.new ≡ set (set s.old (item_place base n + 1) left) (item_place base n + 2) right }
{
    let here = COMPOUND_WORDS * (base + n);
    s[here + 1] = left;
    s[here + 2] = right;
}

// The word of the `==` that is the compound n of the item: no term has its tag.
fn equals_word(base: usize, n: usize) -> u64
    requires { (base < 144115188075855872) × (n ≤ 32) }
    ensures { result ≡ probe_word (item_place base n) }
{
    PROBE + TAGS * word(COMPOUND_WORDS * (base + n))
}

// What stands behind `==`, whose left side has this word: it is counted as a compound at its token, and its right side may open 16 brackets of its own.
fn right_side(
    src: Source<'_>,
    s: &mut [u64],
    names: &mut [u64],
    item: &mut [u64],
    base: usize,
    left: u64,
    c: Cursor,
) -> Result<(u64, Cursor), Unread>
    requires base_in_bounds { (item_end base ≤ length s.old) × (length s.old < 1152921504606846976) }
    requires stands { (known : List Place) × (vars : List Place)
        × Stands src.text.now src.rest.now src.from names.old item.old c known vars }
    ensures { (known : List Place) (vars : List Place)
        → Stands src.entry.text.now src.entry.rest.now src.entry.from names.old item.old c known vars
        → RightIs left src.entry.text.now src.entry.rest.now src.entry.from base known vars c s.old item.old
        s.new names.new item.new result }
{
    let n = c.compounds;
    if ITEM_COMPOUNDS <= n {
        return Err(Unread::Exceeded);
    }
    let d = Cursor {
        compounds: n + 1,
        ..c
    };
    let (right, e) = term(src, s, names, item, base, 16, d)?;
    store_sides(s, base, n, left, right);
    Ok((equals_word(base, n), e))
}

// An element: a compound with a name, a bare name, or two terms with `==` between them. Behind any other term the next token cannot stand.
pub fn element(
    src: Source<'_>,
    s: &mut [u64],
    names: &mut [u64],
    item: &mut [u64],
    base: usize,
    c: Cursor,
) -> Result<(u64, Cursor), Unread>
    requires base_in_bounds { (item_end base ≤ length s.old) × (length s.old < 1152921504606846976) }
    requires stands { (known : List Place) × (vars : List Place)
        × Stands src.text.now src.rest.now src.from names.old item.old c known vars }
    ensures { (known : List Place) (vars : List Place)
        → Stands src.entry.text.now src.entry.rest.now src.entry.from names.old item.old c known vars
        → ElementIs src.entry.text.now src.entry.rest.now src.entry.from base known vars c s.old item.old
        s.new names.new item.new result }
{
    let (w, d) = term(src, s, names, item, base, 16, c)?;
    match next_is(src.rest, d.at, b'=') {
        Ok(behind) => {
            let e = Cursor { at: behind, ..d };
            right_side(src, s, names, item, base, w, e)
        }
        Err(other) => {
            if stands_alone(s, w) {
                return Ok((w, d));
            }
            Err(Unread::from(other))
        }
    }
}

// The ninth element's first token passes the figure, if it can stand there at all.
fn ninth(rest: &[u8], at: usize) -> Unread
    requires { at ≤ length rest.now }
    ensures { NinthIs rest.now at result }
{
    match starts(rest, at) {
        Ok(()) => Unread::Exceeded,
        Err(other) => Unread::from(other),
    }
}

// "With 1 to 8 guards", or 8 body goals: the elements behind `:-` up to the bar or the full stop, their words from the first of `words` on. Whether they
// can be guards or goals is not judged here.
// Stays a lent buffer, with how many words in the answer: there is no heap for a list.
pub fn elements(
    src: Source<'_>,
    s: &mut [u64],
    names: &mut [u64],
    item: &mut [u64],
    base: usize,
    words: &mut [u64],
    c: Cursor,
) -> Result<Elements, Unread>
    requires base_in_bounds { (item_end base ≤ length s.old) × (length s.old < 1152921504606846976) × (8 ≤ length words.old) }
    requires stands { (known : List Place) × (vars : List Place)
        × Stands src.text.now src.rest.now src.from names.old item.old c known vars }
    ensures { (known : List Place) (vars : List Place)
        → Stands src.entry.text.now src.entry.rest.now src.entry.from names.old item.old c known vars
        → ElementsAre src.entry.text.now src.entry.rest.now src.entry.from base known vars c s.old item.old words.old
        s.new names.new item.new words.new result }
{
    let mut d = c;
    for i in 0..8 {
        let (w, e) = element(src, s, names, item, base, d)?;
        words[i] = w;
        let (sign, behind) = next_of(src.rest, e.at, b",|.")?;
        d = Cursor { at: behind, ..e };
        match sign {
            b'|' => return Ok(Elements::Bar(i + 1, d)),
            b'.' => return Ok(Elements::Stop(i + 1, behind - 1, d)),
            _ => {}
        }
    }
    Err(ninth(src.rest, d.at))
}
