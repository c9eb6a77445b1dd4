// The loader's one public function: a text becomes a job in the scratch, or is refused.
ghost use Rattle.std.specs.Prelude.{◌≡◌, List, ℕ, ◌≤◌, length, replicate};
ghost use Rattle.term.specs.Layout.{need_of, figures, InRange};
ghost use Rattle.load_names.specs.Places.{Place};
ghost use Rattle.load_names.specs.Tables.{NamesIn};
ghost use Rattle.load_items.specs.Outcomes.{Lent};
ghost use Rattle.loader.specs.Loading.{UnfitIs, ToldIs, ItemAtIs, ListedIs, LoadedIs};

use crate::prepare::prepare;
use crate::refusal::Refusal;
use load_image::keep::{keep_places, link};
use load_items::items::{Item, Unfit, next_item};
use load_items::refused::Refused;
use load_names::source::Source;
use load_tokens::lines::line;
use term::clear::clear;
use term::layout::Room;

// Why the item that begins in the rest of the text at an offset is refused, with its line.
fn told(text: &[u8], from: usize, unfit: Unfit) -> Refusal
    requires { (places : List Place) × (clauses : ℕ) × (queries : ℕ) × (s : List ℕ) × (s' : List ℕ)
        × UnfitIs text.now from places clauses queries s s' unfit }
    ensures { (places : List Place) (clauses queries : ℕ) (s s' : List ℕ) → UnfitIs text.now from places clauses queries s s' unfit
        → ToldIs text.now from places clauses queries s s' result }
{
    let begins = from + unfit.begins;
    match unfit.why {
        Refused::Malformed(a) => Refusal::NoItems(line(text, from + a), from + a),
        Refused::Unknown => Refusal::GuardRefused(line(text, begins)),
        Refused::Broken(fault) => Refusal::OccurrenceBroken(
            fault.rule,
            line(text, begins),
            from + fault.offset,
        ),
        Refused::Exceeded => Refusal::FigurePassed(line(text, begins)),
    }
}

// The item at an offset of the text, with an empty table of its own, or that nothing is left.
fn item_at(
    text: &[u8],
    from: usize,
    s: &mut [u64],
    names: &mut [u64],
    heads: &mut [u64],
    clauses: usize,
    queries: usize,
    known: usize,
) -> Result<Option<Item>, Refusal>
    requires lent { Lent s.old heads.old }
    requires from_in_bounds { (places : List Place) × (from ≤ length text.now) × NamesIn text.now places names.old × (known ≡ length places) }
    ensures { (places : List Place) → from ≤ length text.now → NamesIn text.now places names.old → known ≡ length places
        → ItemAtIs text.now from places clauses queries s.old heads.old s.new names.old names.new heads.new result }
{
    let mut item = [0u64; 64];
    let rest = &text[from..];
    let src = Source { text, rest, from };
    match next_item(src, s, names, &mut item, heads, clauses, queries, known) {
        Ok(found) => Ok(found),
        Err(unfit) => Err(told(text, from, unfit)),
    }
}

// Reads the text item by item: how many clauses, queries and names it has. The first refused item decides; then no query.
fn all_items(
    text: &[u8],
    s: &mut [u64],
    names: &mut [u64],
    heads: &mut [u64],
) -> Result<(usize, usize, usize), Refusal>
    requires lent { Lent s.old heads.old }
    requires names_value { names.old ≡ replicate 1024 0 }
    ensures { ListedIs text.now s.old s.new names.new heads.new result }
{
    let mut from = 0;
    let mut clauses = 0;
    let mut queries = 0;
    let mut known = 0;
    while let Some(item) = item_at(text, from, s, names, heads, clauses, queries, known)? {
        match item {
            Item::Clause(behind, count) => {
                clauses += 1;
                known = count;
                from += behind;
            }
            Item::Query(behind, count) => {
                queries += 1;
                known = count;
                from += behind;
            }
        }
    }
    if queries == 0 {
        return Err(Refusal::FigurePassed(0));
    }
    Ok((clauses, queries, known))
}

// A text becomes a job in the needed part of the scratch, ready to run, with so many clauses and queries; or it is refused and that part is zero. Nothing
// beyond it changes.
pub fn load(text: &[u8], s: &mut [u64], room: Room) -> Result<(usize, usize), Refusal>
    requires { InRange (figures room) × (need_of (figures room) ≤ length s.old) }
    ensures { LoadedIs text.now (figures room) s.old s.new result }
{
    let words = room.need();
    prepare(s, room);
    let mut names = [0u64; 1024];
    let mut heads = [0u64; 128];
    match all_items(text, s, &mut names, &mut heads) {
        Ok((clauses, queries, known)) => {
            link(s, &heads, clauses);
            keep_places(s, &names, 0, 0, known);
            Ok((clauses, queries))
        }
        Err(why) => {
            clear(s, words);
            Err(why)
        }
    }
}
