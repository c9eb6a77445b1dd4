// The word of a term: a tag below 8, and what it is a term of, eight times over. A pair that has no value holds 0.
ghost use Rattle.std.specs.Prelude.{◌≡◌, ◌<◌, ◌/◌, ◌%◌, IfSome};
ghost use Rattle.term.specs.Words.{view, tag_in, rest_in, link_to};

// The tags. No term has PROBE: it stands before a number of the code's own among words of terms. Below TAGS, a goal's word has its query, and a functor's
// word the number of arguments.
pub const WRITER: u64 = 1;

pub const READER: u64 = 2;

pub const INTEGER: u64 = 3;

pub const NAME: u64 = 4;

pub const EMPTY: u64 = 5;

pub const COMPOUND: u64 = 6;

pub const PROBE: u64 = 7;

pub const TAGS: u64 = 8;

// What a word says.
#[derive(Clone, Copy)]
pub enum View {
    Nothing,
    Writer(usize),
    Reader(usize),
    Integer(u64),
    Name(usize),
    Empty,
    Compound(usize),
}

// A word taken apart.
#[tactic(auto, using(crate::proofs::Words::view_compound), unfolding(crate::specs::Words::view))]
pub fn look(w: u64) -> View
    ensures { result ≡ view (tag_in w) (rest_in w) }
{
    let payload = w / TAGS;
    let tag = w % TAGS;
    match tag {
        0 => View::Nothing,
        WRITER => View::Writer(index(payload)),
        READER => View::Reader(index(payload)),
        INTEGER => View::Integer(payload),
        NAME => View::Name(index(payload)),
        EMPTY => View::Empty,
        _ => View::Compound(index(payload)),
    }
}

// A word as an index, and a number as a word.
// Stay casts: Rust has no From between u64 and usize.
pub fn index(w: u64) -> usize
    ensures { result ≡ w }
{
    w as usize
}

pub fn word(n: usize) -> u64
    ensures { result ≡ n }
{
    n as u64
}

// What a word leads to: it is one more than its number, or 0 where it leads to nothing; and the word that leads there.
pub fn linked(w: u64) -> Option<usize>
    ensures { link_to result ≡ w }
{
    index(w).checked_sub(1)
}

pub fn link(to: Option<usize>) -> u64
    requires { IfSome to (λ n. n < 18446744073709551615) }
    ensures { result ≡ link_to to }
{
    to.map_or(0, |n| word(n + 1))
}
