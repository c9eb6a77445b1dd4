// Document 02, T-01: "the smallest offset decides". The tokens are passed in text order, and the first at which a rule is broken is the answer.
ghost use Rattle.std.specs.Prelude.{◌≡◌, Bool, not, ◌&&◌, ◌||◌, List, ℕ, ◌+◌, ◌≤◌, ◌<◌, eqb, length, get_or};
ghost use Rattle.std.proofs.Math.Option.{Option};
ghost use Rattle.meaning.specs.Bytes.{Bytes, byte};
ghost use Rattle.meaning.specs.Tokens.{Tokens, token, variable};
ghost use Rattle.meaning.specs.Faults.{Fault as FaultOf};
ghost use Rattle.laws.proofs.Reading.Broken.{alone as alone_meant};
ghost use Rattle.load_names.specs.Places.{Place};
ghost use Rattle.load_faults.specs.Finding.{Searched, Searches, Reached, rule_of, half_of, half_from, pardons, on_at, JudgedIs, FaultIs};

use load_names::variables::find;
use load_openings::begin::Half;
use load_tokens::token::{Token, behind_sign, front};

// 5 (the same half twice), 9 (a writer without its reader) and 10 (a reader without its writer).
#[derive(Clone, Copy)]
pub enum Broken {
    Twice,
    WriterAlone,
    ReaderAlone,
}

// The rule, and where in the rest of the text the token stands that breaks it.
#[derive(Clone, Copy)]
pub struct Fault {
    pub rule: Broken,
    pub offset: usize,
}

// What is known of the item: its table with so many variables, the readers that a guard licenses, and whether no half may be alone.
#[derive(Clone, Copy)]
struct Item<'a> {
    table: &'a [u64],
    count: usize,
    licensed: &'a [u64],
    both: bool,
}

// The rule that a half breaks whose other half is missing.
#[tactic(auto, unfolding(laws::proofs::Reading::Broken::alone))]
fn alone(half: Half) -> Broken
    ensures { rule_of result ≡ alone_meant (half_of half) }
{
    match half {
        Half::Writer => Broken::WriterAlone,
        Half::Reader => Broken::ReaderAlone,
    }
}

// Where the halves seen so far are noted from.
#[tactic(auto, unfolding(crate::specs::Finding::half_from))]
fn noted_from(half: Half) -> usize
    ensures { result ≡ half_from (half_of half) }
{
    match half {
        Half::Writer => 0,
        Half::Reader => 16,
    }
}

// A half's other half, counted at this place of the item's table, is missing, where that is a rule.
fn lone(item: &Item<'_>, other: usize) -> bool
    requires { other < length item.now.table.now }
    ensures { result ≡ (item.now.both && eqb (get_or item.now.table.now other 0) 0) }
{
    item.both && item.table[other] == 0
}

// A reader that a guard licenses may stand several times behind the `:-`.
fn excused(item: &Item<'_>, pardon: bool, n: usize) -> bool
    requires { n < length item.now.licensed.now }
    ensures { result ≡ (pardon && not (eqb (get_or item.now.licensed.now n 0) 0)) }
{
    pardon && item.licensed[n] != 0
}

// What a half breaks where it stands, if anything. The counts of its other half stand in the item's table from 48 or 32 on.
// A half that breaks nothing is noted as seen. Where licensed readers are pardoned, one that was seen breaks nothing.
fn judge(
    rest: &[u8],
    item: &Item<'_>,
    pardon: bool,
    seen: &mut [u64; 32],
    half: Half,
    spelling: &[u8],
) -> Result<(), Broken>
    requires { (places : List Place) × (free : Bytes → Bool) × (whole : Tokens) × Searched rest.now item.now.table.now item.now.count item.now.licensed.now places free whole }
    ensures { (places : List Place) (free : Bytes → Bool) (whole : Tokens) (implied : Bool) (at : ℕ) (ts : Tokens) (f : FaultOf) → pardon ≡ pardons implied (half_of half)
        → Searched rest.now item.now.table.now item.now.count item.now.licensed.now places free whole
        → Reached item.now.both places free whole implied seen.old (token at (variable (half_of half) spelling.now) ts) f
        → JudgedIs item.now.both places free whole implied seen.new at ts f result }
{
    let Some(n) = find(rest, item.table, item.count, spelling) else {
        return Ok(());
    };
    let from = noted_from(half);
    if seen[from + n] != 0 {
        if excused(item, pardon, n) {
            return Ok(());
        }
        return Err(Broken::Twice);
    }
    if lone(item, 48 - from + n) {
        return Err(alone(half));
    }
    seen[from + n] = 1;
    Ok(())
}

// Where the walk goes on behind a sign: behind the first `:-` at the first byte behind the bar, if there is one.
#[tactic(auto, using(std::proofs::lemmas::Bool::Decides::nat_tests), unfolding(crate::specs::Finding::on_at, meaning::specs::Bytes::bytes_words))]
fn onward(c: u8, a: usize, implied: bool, bar: Option<usize>) -> usize
    requires { a < 9223372036854775808 }
    ensures { result ≡ on_at c a implied bar }
{
    match bar {
        Some(behind) if c == b':' && !implied => behind,
        _ => behind_sign(c, a),
    }
}

// Whether the walk then stands behind a `:-`.
#[tactic(auto, unfolding(meaning::specs::Bytes::byte))]
fn behind_neck(c: u8, implied: bool) -> bool
    ensures { result ≡ (implied || eqb c (byte ":")) }
{
    implied || c == b':'
}

// The first fault of an item whose tokens stand from an offset of the rest on; in a query (not both) a half may be alone. "Occurrences in guards don't count
// for the pairing": behind the `:-` the walk goes on at `bar`, the first byte behind the bar, if there is one; and there a licensed reader may be seen again.
// That there is a fault is known: the walk reaches neither the item's full stop nor a bad token, and what it says there is never said.
pub fn first_fault(
    rest: &[u8],
    item: &[u64],
    count: usize,
    both: bool,
    begins: usize,
    bar: Option<usize>,
    licensed: &[u64],
) -> Fault
    requires begins_in_bounds { begins ≤ length rest.now }
    requires by_index { (from : ℕ) × (places : List Place) × (free : Bytes → Bool) × (behind : Option Tokens) × (f : FaultOf)
        × Searches rest.now from item.now count both begins bar licensed.now places free behind f }
    ensures { (from : ℕ) (places : List Place) (free : Bytes → Bool) (behind : Option Tokens) (f : FaultOf)
        → Searches rest.now from item.now count both begins bar licensed.now places free behind f
        → FaultIs (length rest.now) from result f }
{
    let known = Item {
        table: item,
        count,
        licensed,
        both,
    };
    let mut seen = [0u64; 32];
    let mut at = begins;
    let mut implied = false;
    loop {
        match front(rest, at) {
            Token::Name(_, e) => {
                at = e;
            }
            Token::Writer(a, e) => {
                if let Err(rule) = judge(
                    rest,
                    &known,
                    false,
                    &mut seen,
                    Half::Writer,
                    &rest[a..e],
                ) {
                    return Fault { rule, offset: a };
                }
                at = e;
            }
            Token::Reader(a, e) => {
                if let Err(rule) = judge(
                    rest,
                    &known,
                    implied,
                    &mut seen,
                    Half::Reader,
                    &rest[a..e],
                ) {
                    return Fault { rule, offset: a };
                }
                at = e + 1;
            }
            Token::Integer(_, _, e) => {
                at = e;
            }
            Token::Sign(c, a) => {
                at = onward(c, a, implied, bar);
                implied = behind_neck(c, implied);
            }
            Token::Bad(a) => {
                return Fault {
                    rule: Broken::Twice,
                    offset: a,
                };
            }
            Token::End => {
                return Fault {
                    rule: Broken::Twice,
                    offset: at,
                };
            }
        }
    }
}
