// A clause read up to its full stop: its head, and behind `:-` its goals, or its guards up to the bar and then its goals.
ghost use Rattle.std.specs.Prelude.{◌≡◌, List, ℕ, ◌+◌, ◌*◌, ◌≤◌, ◌<◌, length, get_or, replicate};
ghost use Rattle.meaning.specs.Table.{Element};
ghost use Rattle.term.specs.Cells.{Places as CellPlaces};
ghost use Rattle.term.specs.Layout.{trial_region, clause_base, clause_goals_from};
ghost use Rattle.load_names.specs.Places.{Place};
ghost use Rattle.load_openings.specs.Reading.{Stands};
ghost use Rattle.load_goals.specs.Endings.{EndIs, goals_part};
ghost use Rattle.load_guards.specs.Judged.{Listed};
ghost use Rattle.load_items.specs.Rules.{Worded, SetIs, TestedIs, perhaps_goals as perhaps_goals_of, GuardedIs, BodyIs, RuledIs};

use crate::counts::{add_counts, copy_counts};
use crate::refused::Refused;
use load_elements::answer::Elements;
use load_elements::elements::elements;
use load_goals::goals::{goal, goals};
use load_guards::guards::{licences, resolve};
use load_names::source::Source;
use load_openings::cursor::{Cursor, Unread};
use load_tokens::next::{next_is, next_of};
use term::layout::{
    CLAUSE_BODY, CLAUSE_STRIDE, CLAUSE_TESTS, CLAUSES, COMPOUND_WORDS, ITEM_COMPOUNDS, ITEMS,
};
use term::word::{COMPOUND, TAGS, word};

// A clause read up to its full stop: how many guards it has and where their bar ends, how many goals, and the cursor behind it.
#[derive(Clone, Copy)]
pub struct Ruled {
    pub guards: usize,
    pub bar: Option<usize>,
    pub goals: u64,
    pub cursor: Cursor,
}

// What the halves of a clause are counted in while it is read, apart from the item's table, and which of its readers are licensed.
#[derive(Drop)]
pub struct Tables {
    pub in_head: [u64; 64],
    pub in_guards: [u64; 64],
    pub licensed: [u64; 16],
}

// The words of elements as the goals', from a place on, if each is a compound with a name.
fn set_goals(s: &mut [u64], words: &[u64], place: usize) -> bool
    requires { (place + 8 ≤ length s.old) × (length s.old < 1152921504606846976) × (length words.now ≤ 8) }
    ensures { (places : CellPlaces) (es : List Element) → Worded words.now places es
        → SetIs s.old s.new place places es result }
{
    for (i, w) in words.iter().enumerate() {
        if *w % TAGS != COMPOUND {
            return false;
        }
        s[place + i] = *w;
    }
    true
}

// The elements before the bar as guards, if the table has each: their words are set, and the readers that they license noted.
fn tested(
    text: &[u8],
    names: &[u64],
    s: &mut [u64],
    words: &[u64],
    base: usize,
    place: usize,
    licensed: &mut [u64],
) -> bool
    requires licensed_value { (licensed.old ≡ replicate 16 0) × (length s.old < 1152921504606846976) }
    requires listed { (known : List Place) × (es : List Element) × Listed text.now names.now s.old words.now (length words.now) base place known es }
    ensures { (known : List Place) (es : List Element) → Listed text.now names.now s.old words.now (length words.now) base place known es
        → TestedIs s.old s.new licensed.new (length words.now) base place known es result }
{
    if !resolve(text, names, s, words, base, place) {
        return false;
    }
    licences(s, place, words.len(), licensed);
    true
}

// Behind the bar, "perhaps no goal": the full stop, or goals.
fn perhaps_goals(
    src: Source<'_>,
    s: &mut [u64],
    names: &mut [u64],
    item: &mut [u64],
    k: usize,
    c: Cursor,
) -> Result<(u64, Cursor), Unread>
    requires k_bound { (k < 128) × (trial_region ≤ length s.old) × (length s.old < 1152921504606846976) }
    requires stands { (known : List Place) × (vars : List Place)
        × Stands src.text.now src.rest.now src.from names.old item.old c known vars }
    ensures { (known : List Place) (vars : List Place)
        → Stands src.entry.text.now src.entry.rest.now src.entry.from names.old item.old c known vars
        → EndIs (goals_part (clause_goals_from k)) perhaps_goals_of
        src.entry.text.now src.entry.rest.now src.entry.from (clause_base k) known vars c s.old item.old
        s.new names.new item.new result }
{
    let place = CLAUSES + CLAUSE_STRIDE * k + CLAUSE_BODY;
    let base = ITEMS / COMPOUND_WORDS + ITEM_COMPOUNDS * k;
    match next_is(src.rest, c.at, b'.') {
        Ok(behind) => Ok((0, Cursor { at: behind, ..c })),
        Err(_) => goals(src, s, names, item, base, place, c),
    }
}

// Behind the bar, which ends where the cursor stands: the n guards are in the table, or not.
fn guarded(
    src: Source<'_>,
    s: &mut [u64],
    names: &mut [u64],
    item: &mut [u64],
    k: usize,
    n: usize,
    found: bool,
    c: Cursor,
) -> Result<Ruled, Refused>
    requires k_bound { (k < 128) × (trial_region ≤ length s.old) × (length s.old < 1152921504606846976) }
    requires stands { (known : List Place) × (vars : List Place)
        × Stands src.text.now src.rest.now src.from names.old item.old c known vars }
    ensures { (known : List Place) (vars : List Place)
        → Stands src.entry.text.now src.entry.rest.now src.entry.from names.old item.old c known vars
        → GuardedIs k n found src.entry.text.now src.entry.rest.now src.entry.from known vars c s.old item.old
        s.new names.new item.new result }
{
    let (goals, cursor) = perhaps_goals(src, s, names, item, k, c)?;
    if !found {
        return Err(Refused::Unknown);
    }
    Ok(Ruled {
        guards: n,
        bar: Some(c.at),
        goals,
        cursor,
    })
}

// What stands behind `:-`, whose head's halves are counted in the tables' `in_head` as in the item's table; those of the elements before a bar are counted apart.
fn body(
    src: Source<'_>,
    s: &mut [u64],
    names: &mut [u64],
    item: &mut [u64],
    tables: &mut Tables,
    k: usize,
    c: Cursor,
) -> Result<Ruled, Refused>
    requires k_bound { (k < 128) × (trial_region ≤ length s.old) × (length s.old < 1152921504606846976) }
    requires none_counted { (tables.old.in_guards ≡ replicate 64 0) × (tables.old.licensed ≡ replicate 16 0) }
    requires by_index { (i : ℕ) → i < 32 → get_or tables.old.in_head (32 + i) 0 ≡ get_or item.old (32 + i) 0 }
    requires stands { (known : List Place) × (vars : List Place)
        × Stands src.text.now src.rest.now src.from names.old item.old c known vars }
    ensures read { (known : List Place) (vars : List Place)
        → Stands src.entry.text.now src.entry.rest.now src.entry.from names.old item.old c known vars
        → BodyIs k src.entry.text.now src.entry.rest.now src.entry.from known vars c s.old item.old
        s.new names.new item.new tables.new.in_guards tables.new.licensed result }
    ensures head_stays { tables.new.in_head ≡ tables.old.in_head }
{
    let mut words = [0u64; 8];
    let record = CLAUSES + CLAUSE_STRIDE * k;
    let base = ITEMS / COMPOUND_WORDS + ITEM_COMPOUNDS * k;
    copy_counts(&tables.in_guards, item);
    match elements(src, s, names, item, base, &mut words, c)? {
        Elements::Stop(n, a, d) => {
            if !set_goals(s, &words[..n], record + CLAUSE_BODY) {
                return Err(Refused::Malformed(a));
            }
            add_counts(item, &tables.in_head);
            Ok(Ruled {
                guards: 0,
                bar: None,
                goals: word(n),
                cursor: d,
            })
        }
        Elements::Bar(n, d) => {
            copy_counts(item, &mut tables.in_guards);
            copy_counts(&tables.in_head, item);
            let found = tested(
                src.text,
                names,
                s,
                &words[..n],
                base,
                record + CLAUSE_TESTS,
                &mut tables.licensed,
            );
            guarded(src, s, names, item, k, n, found, d)
        }
    }
}

// Head and body of the clause of this number. The head's own word is noted for it, and its halves are counted in `in_head`.
pub fn rule(
    src: Source<'_>,
    s: &mut [u64],
    names: &mut [u64],
    item: &mut [u64],
    heads: &mut [u64],
    tables: &mut Tables,
    k: usize,
    c: Cursor,
) -> Result<Ruled, Refused>
    requires k_bound { (k < 128) × (trial_region ≤ length s.old) × (length s.old < 1152921504606846976) × (length heads.old ≡ 128) × (c.compounds ≡ 0) }
    requires none_counted { (tables.old.in_guards ≡ replicate 64 0) × (tables.old.licensed ≡ replicate 16 0) }
    requires stands { (known : List Place) × (vars : List Place)
        × Stands src.text.now src.rest.now src.from names.old item.old c known vars }
    ensures { (known : List Place) (vars : List Place)
        → Stands src.entry.text.now src.entry.rest.now src.entry.from names.old item.old c known vars
        → RuledIs k src.entry.text.now src.entry.rest.now src.entry.from known vars c s.old item.old heads.old
        s.new names.new item.new heads.new tables.new.in_head tables.new.in_guards tables.new.licensed result }
{
    let base = ITEMS / COMPOUND_WORDS + ITEM_COMPOUNDS * k;
    let (_, e) = goal(src, s, names, item, base, c)?;
    heads[k] = s[COMPOUND_WORDS * base];
    copy_counts(item, &mut tables.in_head);
    let (sign, behind) = next_of(src.rest, e.at, b":.")?;
    let d = Cursor { at: behind, ..e };
    if sign == b':' {
        return body(src, s, names, item, tables, k, d);
    }
    Ok(Ruled {
        guards: 0,
        bar: None,
        goals: 0,
        cursor: d,
    })
}
