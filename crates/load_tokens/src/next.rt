// What comes next, as the readers of terms and items ask for it: whether it can begin a term, whether it is a sign, and which of some signs it is.
ghost use Rattle.std.specs.Prelude.{ℕ, ◌≤◌, List, length};
ghost use Rattle.load_tokens.specs.Nexts.{StartIs, MarkIs, IsNextSign, NextIs};

use crate::token::{Token, begins_sign, behind_sign, front, skip};

// Where the token stands that cannot stand there.
#[derive(Clone, Copy)]
pub struct Misplaced(pub usize);

// Whether the next token can begin a term.
pub fn starts(rest: &[u8], at: usize) -> Result<(), Misplaced>
    requires { at ≤ length rest.now }
    ensures { StartIs rest.now at result }
{
    match front(rest, at) {
        Token::Name(_, _) | Token::Writer(_, _) | Token::Reader(_, _) | Token::Integer(_, _, _) =>
            Ok(()),
        Token::Sign(b'[', _) => Ok(()),
        Token::Sign(_, a) => Err(Misplaced(a)),
        Token::Bad(a) => Err(Misplaced(a)),
        Token::End => Err(Misplaced(rest.len())),
    }
}

// The sign that comes next, and where. No run is read through: its first byte tells that it is no sign.
fn ahead(rest: &[u8], at: usize) -> Result<(u8, usize), Misplaced>
    requires { at ≤ length rest.now }
    ensures { MarkIs rest.now at result }
{
    let a = skip(rest, at);
    if rest.len() <= a {
        return Err(Misplaced(a));
    }
    let c = rest[a];
    if begins_sign(rest, a, c) {
        Ok((c, a))
    } else {
        Err(Misplaced(a))
    }
}

// Whether this sign comes next: the first place behind it.
pub fn next_is(rest: &[u8], at: usize, sign: u8) -> Result<usize, Misplaced>
    requires { at ≤ length rest.now }
    ensures { IsNextSign rest.now at sign result }
{
    let (c, a) = ahead(rest, at)?;
    if c == sign {
        Ok(behind_sign(c, a))
    } else {
        Err(Misplaced(a))
    }
}

// Which of these signs comes next, with the first place behind it.
pub fn next_of(rest: &[u8], at: usize, signs: &[u8]) -> Result<(u8, usize), Misplaced>
    requires { at ≤ length rest.now }
    ensures { NextIs rest.now at signs.now result }
{
    let (c, a) = ahead(rest, at)?;
    if signs.contains(&c) {
        Ok((c, behind_sign(c, a)))
    } else {
        Err(Misplaced(a))
    }
}
