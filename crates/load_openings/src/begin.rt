// A term by its first token: "a writer, a reader, a constant, a compound or a list", read whole or up to behind its opening bracket.
ghost use Rattle.std.specs.Prelude.{◌≡◌, List, ◌+◌, ◌*◌, ◌≤◌, ◌<◌, length};
ghost use Rattle.std.proofs.Math.Seq.{slice};
ghost use Rattle.load_names.specs.Places.{Place};
ghost use Rattle.load_names.specs.Tables.{VariablesIn};
ghost use Rattle.load_openings.specs.Begun.{BehindName, BehindBracket, VariableBegun, tag_of};
ghost use Rattle.load_openings.specs.Reading.{Stands, BegunIs};

use crate::cursor::{Cursor, Unread};
use load_names::source::Source;
use load_names::{names, variables};
use load_tokens::next::next_is;
use load_tokens::token::{Token, front};
use term::word::{EMPTY, INTEGER, NAME, READER, TAGS, WRITER, word};

// A term begun: read whole, or up to behind its opening bracket, of a compound with its name's number.
#[derive(Clone, Copy)]
pub enum Begun {
    Got(u64, Cursor),
    Round(usize, Cursor),
    Square(Cursor),
}

// What follows the name n: a compound's arguments, or nothing.
fn behind_name(rest: &[u8], left: usize, n: usize, d: Cursor) -> Result<Begun, Unread>
    requires { (d.at ≤ length rest.now) × (n < 256) }
    ensures { BehindName rest.now left n d result }
{
    match next_is(rest, d.at, b'(') {
        Err(_) => Ok(Begun::Got(NAME + TAGS * word(n), d)),
        Ok(_) if left == 0 => Err(Unread::Exceeded),
        Ok(at) => Ok(Begun::Round(n, Cursor { at, ..d })),
    }
}

// What follows the opening bracket of a list: `]`, or its elements.
fn behind_bracket(rest: &[u8], left: usize, d: Cursor) -> Result<Begun, Unread>
    requires { d.at ≤ length rest.now }
    ensures { BehindBracket rest.now left d result }
{
    if left == 0 {
        return Err(Unread::Exceeded);
    }
    match next_is(rest, d.at, b']') {
        Ok(at) => Ok(Begun::Got(EMPTY, Cursor { at, ..d })),
        Err(_) => Ok(Begun::Square(d)),
    }
}

// The halves of a variable.
#[derive(Clone, Copy)]
pub enum Half {
    Writer,
    Reader,
}

impl Half {
    // The tag of its words.
    fn tag(self) -> u64
        ensures { result ≡ tag_of self }
    {
        match self {
            Half::Writer => WRITER,
            Half::Reader => READER,
        }
    }

    // The place of the item's table from which on its occurrences are counted.
    fn counts(self) -> usize
        ensures { result ≡ 16 + 16 * tag_of self }
    {
        match self {
            Half::Writer => 32,
            Half::Reader => 48,
        }
    }
}

// A variable's word, with the tag of its half.
fn variable(
    rest: &[u8],
    item: &mut [u64],
    half: Half,
    a: usize,
    e: usize,
    at: usize,
    c: Cursor,
) -> Result<Begun, Unread>
    requires a_lt_e { (a < e) × (e ≤ length rest.now) }
    requires variables_in { (vars : List Place) × VariablesIn rest.now vars item.old × (c.variables ≡ length vars) }
    ensures { (vars : List Place) → VariablesIn rest.now vars item.old → c.variables ≡ length vars
        → VariableBegun rest.now vars (tag_of half) a (slice a e rest.now) at c item.old item.new result }
{
    let numbered = variables::number(rest, item, c.variables, half.counts(), a, e);
    let (n, variables) = numbered.ok_or(Unread::Exceeded)?;
    let d = Cursor { at, variables, ..c };
    Ok(Begun::Got(half.tag() + TAGS * word(n), d))
}

// "A term is a writer, a reader, a constant, a compound or a list", by its first token, and by the next where that is a name or `[`.
pub fn begin(
    src: Source<'_>,
    names: &mut [u64],
    item: &mut [u64],
    left: usize,
    c: Cursor,
) -> Result<Begun, Unread>
    requires { (known : List Place) × (vars : List Place)
        × Stands src.text.now src.rest.now src.from names.old item.old c known vars }
    ensures { (known : List Place) (vars : List Place)
        → Stands src.entry.text.now src.entry.rest.now src.entry.from names.old item.old c known vars
        → BegunIs left src.entry.text.now src.entry.rest.now src.entry.from
        known vars c item.old names.new item.new result }
{
    match front(src.rest, c.at) {
        Token::Name(a, e) => {
            let numbered = names::number(src, names, c.names, a, e);
            let (n, names) = numbered.ok_or(Unread::Exceeded)?;
            behind_name(src.rest, left, n, Cursor { at: e, names, ..c })
        }
        Token::Writer(a, e) => variable(src.rest, item, Half::Writer, a, e, e, c),
        Token::Reader(a, e) => variable(src.rest, item, Half::Reader, a, e, e + 1, c),
        Token::Integer(w, _, e) => Ok(Begun::Got(INTEGER + TAGS * w, Cursor { at: e, ..c })),
        Token::Sign(b'[', a) => behind_bracket(src.rest, left, Cursor { at: a + 1, ..c }),
        Token::Sign(_, a) | Token::Bad(a) => Err(Unread::Malformed(a)),
        Token::End => Err(Unread::Malformed(src.rest.len())),
    }
}
