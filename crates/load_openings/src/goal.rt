// How a goal begins: "heads and goals are compounds with a name".
ghost use Rattle.std.specs.Prelude.{List, ℕ};
ghost use Rattle.load_names.specs.Places.{Place};
ghost use Rattle.load_openings.specs.Reading.{Stands};
ghost use Rattle.load_openings.specs.Openings.{OpeningIs};

use crate::cursor::{Cursor, Unread};
use load_names::names;
use load_names::source::Source;
use load_tokens::next::next_is;
use load_tokens::token::{Token, front};

// "Heads and goals are compounds with a name": the name's number, and the cursor behind its parenthesis.
pub fn goal_name(src: Source<'_>, names: &mut [u64], c: Cursor) -> Result<(usize, Cursor), Unread>
    requires { (known : List Place) × (vars : List Place) × (item : List ℕ)
        × Stands src.text.now src.rest.now src.from names.old item c known vars }
    ensures { (known : List Place) (vars : List Place) (item : List ℕ)
        → Stands src.entry.text.now src.entry.rest.now src.entry.from names.old item c known vars
        → OpeningIs src.entry.text.now src.entry.rest.now src.entry.from names.new item known vars c result }
{
    match front(src.rest, c.at) {
        Token::Name(a, e) => {
            let numbered = names::number(src, names, c.names, a, e);
            let (n, names) = numbered.ok_or(Unread::Exceeded)?;
            let at = next_is(src.rest, e, b'(')?;
            Ok((n, Cursor { at, names, ..c }))
        }
        Token::Writer(a, _)
        | Token::Reader(a, _)
        | Token::Integer(_, a, _)
        | Token::Sign(_, a)
        | Token::Bad(a) => Err(Unread::Malformed(a)),
        Token::End => Err(Unread::Malformed(src.rest.len())),
    }
}
