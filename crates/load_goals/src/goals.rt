// Goals, each read into the item's compounds: one, or up to eight with commas between, up to the item's full stop.
ghost use Rattle.std.specs.Prelude.{List, ◌+◌, ◌*◌, ◌≤◌, ◌<◌, length};
ghost use Rattle.meaning.specs.Terms.{as_term};
ghost use Rattle.meaning.specs.Items.{goal as goal_reader, goals as goals_reader};
ghost use Rattle.term.specs.Layout.{trial_region, trial_base, item_end, item_compounds};
ghost use Rattle.load_names.specs.Places.{Place};
ghost use Rattle.load_openings.specs.Reading.{Stands, ReadIs};
ghost use Rattle.load_goals.specs.Endings.{NinthIs, EndIs, goals_part};

use load_names::source::Source;
use load_openings::cursor::{Cursor, Unread};
use load_openings::goal::goal_name;
use load_terms::terms::compound;
use load_tokens::next::next_of;
use load_tokens::token::{Token, front};
use term::word::word;

// A goal; the parenthesis is the first of the 16 brackets.
pub fn goal(
    src: Source<'_>,
    s: &mut [u64],
    names: &mut [u64],
    item: &mut [u64],
    base: usize,
    c: Cursor,
) -> Result<(u64, Cursor), Unread>
    requires base_in_bounds { (item_end base ≤ length s.old) × (length s.old < 1152921504606846976) }
    requires stands { (known : List Place) × (vars : List Place)
        × Stands src.text.now src.rest.now src.from names.old item.old c known vars }
    ensures { (known : List Place) (vars : List Place)
        → Stands src.entry.text.now src.entry.rest.now src.entry.from names.old item.old c known vars
        → ReadIs as_term goal_reader src.entry.text.now src.entry.rest.now src.entry.from base known vars c
        s.old item.old s.new names.new item.new result }
{
    let (n, d) = goal_name(src, names, c)?;
    compound(src, s, names, item, base, 15, n, d)
}

// The ninth goal's name passes the figure, if the token can stand there at all.
fn ninth(rest: &[u8], at: usize) -> Unread
    requires { at ≤ length rest.now }
    ensures { NinthIs rest.now at result }
{
    match front(rest, at) {
        Token::Name(_, _) => Unread::Exceeded,
        Token::Writer(a, _)
        | Token::Reader(a, _)
        | Token::Integer(_, a, _)
        | Token::Sign(_, a)
        | Token::Bad(a) => Unread::Malformed(a),
        Token::End => Unread::Malformed(rest.len()),
    }
}

// "8 body or query goals", up to the full stop: their words stand from a place on, and how many there are is the answer.
pub fn goals(
    src: Source<'_>,
    s: &mut [u64],
    names: &mut [u64],
    item: &mut [u64],
    base: usize,
    place: usize,
    c: Cursor,
) -> Result<(u64, Cursor), Unread>
    requires item_compounds_bound { (base + item_compounds ≤ trial_base) × (place + 8 ≤ trial_region) × (trial_region ≤ length s.old) × (length s.old < 1152921504606846976) }
    requires stands { (known : List Place) × (vars : List Place)
        × Stands src.text.now src.rest.now src.from names.old item.old c known vars }
    ensures { (known : List Place) (vars : List Place)
        → Stands src.entry.text.now src.entry.rest.now src.entry.from names.old item.old c known vars
        → EndIs (goals_part place) (goals_reader 8) src.entry.text.now src.entry.rest.now src.entry.from base
        known vars c s.old item.old s.new names.new item.new result }
{
    let mut d = c;
    for i in 0..8 {
        let (w, e) = goal(src, s, names, item, base, d)?;
        s[place + i] = w;
        let (sign, at) = next_of(src.rest, e.at, &[b',', b'.'])?;
        d = Cursor { at, ..e };
        if sign == b'.' {
            return Ok((word(i + 1), d));
        }
    }
    Err(ninth(src.rest, d.at))
}
