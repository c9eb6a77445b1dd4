// Terms of an item, read into the item's compounds: `term` reads one term, `arguments` and `elements` its list of arguments or elements.
ghost use Rattle.std.specs.Prelude.{◌≡◌, List, ℕ, ◌+◌, ◌*◌, ◌-◌, ◌≤◌, ◌<◌, length, set};
ghost use Rattle.std.proofs.Math.Option.{some};
ghost use Rattle.meaning.specs.Bytes.{Bytes};
ghost use Rattle.meaning.specs.Terms.{Term, as_term};
ghost use Rattle.meaning.specs.Items.{place_of, compound_of};
ghost use Rattle.meaning.specs.Items.{term as term_reader, arguments as arguments_reader, elements as elements_reader};
ghost use Rattle.term.specs.Layout.{item_end, item_place};
ghost use Rattle.term.specs.Words.{compound_word as compound_word_meant, packed};
ghost use Rattle.load_names.specs.Places.{Place, spellings};
ghost use Rattle.load_openings.specs.Reading.{Stands, ReadIs, ArgumentsAre, closed};

use load_names::source::Source;
use load_openings::begin::{Begun, begin};
use load_openings::cursor::{Cursor, Unread};
use load_tokens::next::{next_is, next_of, starts};
use term::layout::{COMPOUND_WORDS, ITEM_COMPOUNDS};
use term::word::{COMPOUND, EMPTY, TAGS, word};

// A compound's own word: the number of its arguments, and eight times its functor: 0 for the list cell, else the name's number and one.
fn functor(name: usize, count: u64) -> u64
    requires { (name < 256) × (count ≤ 6) }
    ensures { result ≡ packed count (name + 1) }
{
    count + TAGS * word(name + 1)
}

// The place of the compound n of the item, whose compounds have places from 8 * base on: its own word stands there,
// and one for each argument behind it.
fn place(base: usize, n: usize) -> usize
    requires { item_place base n ≤ usize.MAX }
    ensures { result ≡ item_place base n }
{
    COMPOUND_WORDS * (base + n)
}

// The word of the compound n of the item.
fn compound_word(base: usize, n: usize) -> u64
    requires { (base < 144115188075855872) × (n ≤ 32) }
    ensures { result ≡ compound_word_meant (item_place base n) }
{
    COMPOUND + TAGS * word(place(base, n))
}

// The words of the list cell n: its element, its tail and its functor.
fn store_cell(s: &mut [u64], base: usize, n: usize, element: u64, tail: u64)
    requires { (item_place base n + 2 < length s.old) × (length s.old < 1152921504606846976) }
    ensures { s.new ≡ set (set (set s.old (item_place base n + 1 + 0) element) (item_place base n + 1 + 1) tail) (item_place base n) 2 }
{
    let here = place(base, n);
    s[here + 1] = element;
    s[here + 2] = tail;
    s[here] = 2;
}

// A term inside which so many brackets more may open.
#[cycle(arguments_compound_elements_last_tail_term)]
pub fn term(
    src: Source<'_>,
    s: &mut [u64],
    names: &mut [u64],
    item: &mut [u64],
    base: usize,
    left: usize,
    c: Cursor,
) -> Result<(u64, Cursor), Unread>
    requires left_bound { (left ≤ 16) × (item_end base ≤ length s.old) × (length s.old < 1152921504606846976) }
    requires stands { (known : List Place) × (vars : List Place)
        × Stands src.text.now src.rest.now src.from names.old item.old c known vars }
    ensures { (known : List Place) (vars : List Place)
        → Stands src.entry.text.now src.entry.rest.now src.entry.from names.old item.old c known vars
        → ReadIs (λ (t : Term). t) (term_reader left)
        src.entry.text.now src.entry.rest.now src.entry.from base known vars c s.old item.old s.new names.new item.new result }
{
    match begin(src, names, item, left, c)? {
        Begun::Got(w, d) => Ok((w, d)),
        Begun::Round(n, d) => compound(src, s, names, item, base, left - 1, n, d),
        Begun::Square(d) => elements(src, s, names, item, base, left - 1, d),
    }
}

// "A compound `name(T,..)` with 1 to 6 arguments", behind its opening parenthesis.
#[cycle(arguments_compound_elements_last_tail_term)]
pub fn compound(
    src: Source<'_>,
    s: &mut [u64],
    names: &mut [u64],
    item: &mut [u64],
    base: usize,
    left: usize,
    name: usize,
    c: Cursor,
) -> Result<(u64, Cursor), Unread>
    requires left_bound { (left ≤ 15) × (item_end base ≤ length s.old) × (length s.old < 1152921504606846976) }
    requires stands { (known : List Place) × (vars : List Place)
        × Stands src.text.now src.rest.now src.from names.old item.old c known vars × (f : Bytes)
        × (place_of f (spellings known) ≡ some name) }
    ensures { (known : List Place) (vars : List Place)
        → Stands src.entry.text.now src.entry.rest.now src.entry.from names.old item.old c known vars
        → (f : Bytes) → place_of f (spellings known) ≡ some name
        → ReadIs as_term (compound_of (term_reader left) f)
        src.entry.text.now src.entry.rest.now src.entry.from base known vars c s.old item.old s.new names.new item.new result }
{
    let n = c.compounds;
    if ITEM_COMPOUNDS <= n {
        return Err(Unread::Exceeded);
    }
    let inside = Cursor {
        compounds: n + 1,
        ..c
    };
    let (count, d) = arguments(src, s, names, item, base, left, n, inside)?;
    s[place(base, n)] = functor(name, count);
    Ok((compound_word(base, n), d))
}

// The arguments of the compound n, one after the other, and how many it has.
#[cycle(arguments_compound_elements_last_tail_term)]
fn arguments(
    src: Source<'_>,
    s: &mut [u64],
    names: &mut [u64],
    item: &mut [u64],
    base: usize,
    left: usize,
    n: usize,
    c: Cursor,
) -> Result<(u64, Cursor), Unread>
    requires left_bound { (left ≤ 15) × (item_end base ≤ length s.old) × (length s.old < 1152921504606846976) × (n < c.compounds) }
    requires stands { (known : List Place) × (vars : List Place)
        × Stands src.text.now src.rest.now src.from names.old item.old c known vars }
    ensures { (known : List Place) (vars : List Place)
        → Stands src.entry.text.now src.entry.rest.now src.entry.from names.old item.old c known vars
        → ArgumentsAre n 0 (arguments_reader (term_reader left) 6)
        src.entry.text.now src.entry.rest.now src.entry.from base known vars c s.old item.old s.new names.new item.new result }
{
    let mut d = c;
    for i in 0..6 {
        let (w, e) = term(src, s, names, item, base, left, d)?;
        s[place(base, n) + 1 + i] = w;
        let (sign, at) = next_of(src.rest, e.at, &[b',', b')'])?;
        d = Cursor { at, ..e };
        if sign == b')' {
            return Ok((word(i + 1), d));
        }
    }
    starts(src.rest, d.at)?;
    Err(Unread::Exceeded)
}

// "A list `[T,..]` or `[T,..|T]`", behind its bracket: each element makes one list cell, counted at its first token,
// whose tail is the next compound, the term behind the `|`, or `[]`.
#[cycle(arguments_compound_elements_last_tail_term)]
fn elements(
    src: Source<'_>,
    s: &mut [u64],
    names: &mut [u64],
    item: &mut [u64],
    base: usize,
    left: usize,
    c: Cursor,
) -> Result<(u64, Cursor), Unread>
    requires left_bound { (left ≤ 15) × (item_end base ≤ length s.old) × (length s.old < 1152921504606846976) }
    requires stands { (known : List Place) × (vars : List Place)
        × Stands src.text.now src.rest.now src.from names.old item.old c known vars }
    ensures { (known : List Place) (vars : List Place)
        → Stands src.entry.text.now src.entry.rest.now src.entry.from names.old item.old c known vars
        → (left_over : ℕ) → 32 ≤ left_over + c.compounds
        → ReadIs (λ (t : Term). t) (elements_reader (term_reader left) left_over)
        src.entry.text.now src.entry.rest.now src.entry.from base known vars c s.old item.old s.new names.new item.new result }
{
    let first = c.compounds;
    let mut d = c;
    while d.compounds < ITEM_COMPOUNDS {
        let cell = d.compounds;
        let inside = Cursor {
            compounds: cell + 1,
            ..d
        };
        let (w, e) = term(src, s, names, item, base, left, inside)?;
        let (sign, at) = next_of(src.rest, e.at, &[b',', b'|', b']'])?;
        d = Cursor { at, ..e };
        match sign {
            b',' => store_cell(s, base, cell, w, compound_word(base, d.compounds)),
            b'|' => {
                let (tail, f) = last_tail(src, s, names, item, base, left, d)?;
                store_cell(s, base, cell, w, tail);
                return Ok((compound_word(base, first), f));
            }
            _ => {
                store_cell(s, base, cell, w, EMPTY);
                return Ok((compound_word(base, first), d));
            }
        }
    }
    starts(src.rest, d.at)?;
    Err(Unread::Exceeded)
}

// The term behind a list's `|`, and its closing bracket.
#[cycle(arguments_compound_elements_last_tail_term)]
fn last_tail(
    src: Source<'_>,
    s: &mut [u64],
    names: &mut [u64],
    item: &mut [u64],
    base: usize,
    left: usize,
    c: Cursor,
) -> Result<(u64, Cursor), Unread>
    requires left_bound { (left ≤ 15) × (item_end base ≤ length s.old) × (length s.old < 1152921504606846976) }
    requires stands { (known : List Place) × (vars : List Place)
        × Stands src.text.now src.rest.now src.from names.old item.old c known vars }
    ensures { (known : List Place) (vars : List Place)
        → Stands src.entry.text.now src.entry.rest.now src.entry.from names.old item.old c known vars
        → ReadIs (λ (t : Term). t) (closed (term_reader left))
        src.entry.text.now src.entry.rest.now src.entry.from base known vars c s.old item.old s.new names.new item.new result }
{
    let (w, e) = term(src, s, names, item, base, left, c)?;
    let at = next_is(src.rest, e.at, b']')?;
    Ok((w, Cursor { at, ..e }))
}
