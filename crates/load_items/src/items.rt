// Items: "`head.`, `head :- goal,..,goal.` or `?- goal,..,goal.`", each read into its places of the scratch and judged behind its full stop.
// Stays four slices, scratch, names, item and heads: tried as one struct of `&mut`s, and what they hold is lost where the loan ends.
ghost use Rattle.std.specs.Prelude.{◌≡◌, List, ℕ, ◌+◌, ◌*◌, ◌≤◌, ◌<◌, length};
ghost use Rattle.load_names.specs.Places.{Place};
ghost use Rattle.meaning.specs.Bytes.{Bytes};
ghost use Rattle.meaning.specs.Tokens.{Tokens, token, sign};
ghost use Rattle.term.specs.Layout.{trial_region};
ghost use Rattle.load_tokens.specs.Fronts.{tokens_in};
ghost use Rattle.load_items.specs.Outcomes.{BegunIs, ItemIs, Begins, FirstName, Lent, begun_at};
ghost use Rattle.load_items.specs.Judging.{Whole, Judging, JudgedIs};

use crate::refused::Refused;
use crate::rule::{Ruled, Tables, rule};
use load_faults::faults::first_fault;
use load_goals::goals::goals;
use load_guards::guards::foreign;
use load_image::keep::keep_places;
use load_names::rules::{clause_rules, nothing_twice};
use load_names::source::Source;
use load_openings::cursor::Cursor;
use load_tokens::token::{Token, front};
use term::layout::{
    CLAUSE_COMPOUNDS, CLAUSE_GOALS, CLAUSE_GUARDS, CLAUSE_PAIRS, CLAUSE_STRIDE, CLAUSES,
    COMPOUND_WORDS, ITEM_COMPOUNDS, ITEMS, QUERIES, QUERY_BODY, QUERY_COMPOUNDS, QUERY_PAIRS,
    QUERY_STRIDE, QUERY_VARIABLES,
};
use term::word::word;

// An item read: the byte behind its full stop, and the names counted so far.
#[derive(Clone, Copy)]
pub enum Item {
    Clause(usize, usize),
    Query(usize, usize),
}

// Where an item begins, and why it is refused.
#[derive(Clone, Copy)]
pub struct Unfit {
    pub begins: usize,
    pub why: Refused,
}

fn first(names: usize, at: usize) -> Cursor
    ensures { (result.at ≡ at) × (result.names ≡ names) × (result.variables ≡ 0) × (result.compounds ≡ 0) }
{
    Cursor {
        at,
        names,
        variables: 0,
        compounds: 0,
    }
}

// The clause of this number behind its full stop: "11 with another variable", then 5, 9 and 10; or its words are stored.
fn judged(
    rest: &[u8],
    s: &mut [u64],
    item: &[u64],
    tables: &Tables,
    k: usize,
    ruled: Ruled,
) -> Result<Item, Refused>
    requires k_bound { (k < 128) × (trial_region ≤ length s.old) × (length s.old < 1152921504606846976) }
    requires judging { (w : Whole) × Judging rest.now s.old item.now tables.now.in_head tables.now.in_guards tables.now.licensed k ruled w }
    ensures { (w : Whole) → Judging rest.now s.old item.now tables.now.in_head tables.now.in_guards tables.now.licensed k ruled w
        → JudgedIs rest.now k s.new w result }
{
    let counts = &tables.in_head[32..];
    let c = ruled.cursor;
    if foreign(&tables.in_guards, counts, c.variables) {
        return Err(Refused::Unknown);
    }
    if !clause_rules(item, counts, &tables.licensed, c.variables) {
        let fault = first_fault(
            rest,
            item,
            c.variables,
            true,
            0,
            ruled.bar,
            &tables.licensed,
        );
        return Err(Refused::Broken(fault));
    }
    let record = CLAUSES + CLAUSE_STRIDE * k;
    s[record + CLAUSE_PAIRS] = word(c.variables);
    s[record + CLAUSE_COMPOUNDS] = word(c.compounds);
    s[record + CLAUSE_GOALS] = ruled.goals;
    s[record + CLAUSE_GUARDS] = word(ruled.guards);
    Ok(Item::Clause(c.at, c.names))
}

// The clause of this number, whose first token is a name.
fn clause(
    src: Source<'_>,
    s: &mut [u64],
    names: &mut [u64],
    item: &mut [u64],
    heads: &mut [u64],
    k: usize,
    known: usize,
) -> Result<Item, Refused>
    requires lent { Lent s.old heads.old }
    requires begins { (places : List Place)
        × Begins src.text.now src.rest.now src.from names.old item.old known places }
    requires first_token { (begins : ℕ) × (f : Bytes) × (ts : Tokens)
        × FirstName src.rest.now src.from begins f ts }
    ensures { (places : List Place) (queries begins : ℕ) (f : Bytes) (ts : Tokens)
        → Begins src.entry.text.now src.entry.rest.now src.entry.from names.old item.old known places
        → FirstName src.entry.rest.now src.entry.from begins f ts
        → BegunIs src.entry.text.now src.entry.rest.now src.entry.from places k queries begins s.old heads.old
        s.new names.new heads.new result }
{
    if 128 <= k {
        return Err(Refused::Exceeded);
    }
    let mut tables = Tables {
        in_head: [0; 64],
        in_guards: [0; 64],
        licensed: [0; 16],
    };
    let ruled = rule(src, s, names, item, heads, &mut tables, k, first(known, 0))?;
    judged(src.rest, s, item, &tables, k, ruled)
}

// The query of this number, whose `?-` is at an offset of the rest.
fn query(
    src: Source<'_>,
    s: &mut [u64],
    names: &mut [u64],
    item: &mut [u64],
    k: usize,
    known: usize,
    begins: usize,
) -> Result<Item, Refused>
    requires lent { (trial_region ≤ length s.old) × (length s.old < 1152921504606846976) }
    requires begins { (places : List Place)
        × Begins src.text.now src.rest.now src.from names.old item.old known places }
    requires begins_in_bounds { (begins + 2 ≤ length src.rest.now)
        × (tokens_in src.from src.rest.now 0 ≡ token (src.from + begins) (sign 63) (tokens_in src.from src.rest.now (begins + 2))) }
    ensures { (places : List Place) (clauses : ℕ) (heads : List ℕ)
        → Begins src.entry.text.now src.entry.rest.now src.entry.from names.old item.old known places
        → BegunIs src.entry.text.now src.entry.rest.now src.entry.from places clauses k begins s.old heads
        s.new names.new heads result }
{
    if 8 <= k {
        return Err(Refused::Exceeded);
    }
    let record = QUERIES + QUERY_STRIDE * k;
    let (count, c) = goals(
        src,
        s,
        names,
        item,
        ITEMS / COMPOUND_WORDS + ITEM_COMPOUNDS * (128 + k),
        record + QUERY_BODY,
        first(known, begins + 2),
    )?;
    if !nothing_twice(item, c.variables) {
        let licensed = [0u64; 16];
        let fault = first_fault(
            src.rest,
            item,
            c.variables,
            false,
            begins + 2,
            None,
            &licensed,
        );
        return Err(Refused::Broken(fault));
    }
    s[record] = count;
    s[record + QUERY_PAIRS] = word(c.variables);
    s[record + QUERY_COMPOUNDS] = word(c.compounds);
    keep_places(s, item, src.from, record + QUERY_VARIABLES, c.variables);
    Ok(Item::Query(c.at, c.names))
}

// An item as it was read, or where it begins and why it is refused.
fn begun(begins: usize, read: Result<Item, Refused>) -> Result<Option<Item>, Unfit>
    ensures { result ≡ begun_at begins read }
{
    match read {
        Ok(item) => Ok(Some(item)),
        Err(why) => Err(Unfit { begins, why }),
    }
}

// The item in front of the rest of the text, which begins at the byte after the full stop before it, or that nothing is left.
pub fn next_item(
    src: Source<'_>,
    s: &mut [u64],
    names: &mut [u64],
    item: &mut [u64],
    heads: &mut [u64],
    clauses: usize,
    queries: usize,
    known: usize,
) -> Result<Option<Item>, Unfit>
    requires lent { Lent s.old heads.old }
    requires begins { (places : List Place)
        × Begins src.text.now src.rest.now src.from names.old item.old known places }
    ensures { (places : List Place)
        → Begins src.entry.text.now src.entry.rest.now src.entry.from names.old item.old known places
        → ItemIs src.entry.text.now src.entry.rest.now src.entry.from places clauses queries s.old heads.old
        s.new names.old names.new heads.new result }
{
    match front(src.rest, 0) {
        Token::Name(a, _) => begun(a, clause(src, s, names, item, heads, clauses, known)),
        Token::Sign(b'?', a) => begun(a, query(src, s, names, item, queries, known, a)),
        Token::Sign(_, a)
        | Token::Writer(a, _)
        | Token::Reader(a, _)
        | Token::Integer(_, a, _)
        | Token::Bad(a) => Err(Unfit {
            begins: a,
            why: Refused::Malformed(a),
        }),
        Token::End => Ok(None),
    }
}
