// The table of document 01 on words: a head's term, as the item has it, against a goal's term. What the trial notes is kept in the trial's region:
// 16 words for what the head's writers are given; then, two words each, the goal's pairs that are given a term of the head, or whose readers the trial
// waits on.
ghost use Rattle.std.specs.Prelude.{◌≡◌, not, ℕ, ◌+◌, ◌*◌, ◌/◌, ◌%◌, ◌≤◌, ◌<◌, length, get_or, eqb};
ghost use Rattle.term.specs.Words.{view, tag_in, rest_in};
ghost use Rattle.term.specs.declared.word.View.TheVariants.{Writer};
ghost use Rattle.term.specs.Layout.{woken_part};
ghost use Rattle.run_table.specs.Rows.{head_written, goal_written, asked_written, Done, writer_row, reader_row, constant_row, compound_row, row};

use term::layout::{GIFTS, TRIAL};
use term::word::{View, look, word};

// How many of the goal's pairs are noted so far, where the place agrees or waits; or it fails; or the places of two compounds whose functors and
// arguments are to be compared.
#[derive(Clone, Copy)]
pub enum PlaceResult {
    Noted(usize),
    Fails,
    Below(usize, usize),
}

// Z := the head's term.
fn give(s: &mut [u64], n: usize, z: usize, h: u64) -> usize
    requires { (woken_part ≤ length s.old) × (n < 192) }
    ensures { (result ≡ n + 1) × (s.new ≡ goal_written n z h s.old) }
{
    let v = word(z);
    s[GIFTS + 2 * n] = v;
    s[GIFTS + 1 + 2 * n] = h;
    n + 1
}

// The trial waits on the reader of Z: no term stands beside it.
fn ask(s: &mut [u64], n: usize, z: usize) -> usize
    requires { (woken_part ≤ length s.old) × (n < 192) }
    ensures { (result ≡ n + 1) × (s.new ≡ asked_written n z s.old) }
{
    give(s, n, z, 0)
}

// X := the goal's term.
fn take(s: &mut [u64], n: usize, x: usize, w: u64) -> usize
    requires { (woken_part ≤ length s.old) × (x < 16) }
    ensures { (result ≡ n) × (s.new ≡ head_written x w s.old) }
{
    s[TRIAL + x] = w;
    n
}

// A head's writer against a goal's term: X := it, unless it is a writer.
fn against_writer(s: &mut [u64], x: usize, h: u64, w: u64, n: usize) -> PlaceResult
    requires { (woken_part ≤ length s.old) × (x < 16) }
    ensures { Done s.old s.new n h w (writer_row x (view (tag_in w) (rest_in w))) result }
{
    match look(w) {
        View::Writer(_) => PlaceResult::Fails,
        _ => PlaceResult::Noted(take(s, n, x, w)),
    }
}

// A head's reader: only a goal's writer agrees.
fn against_reader(s: &mut [u64], h: u64, w: u64, n: usize) -> PlaceResult
    requires { (woken_part ≤ length s.old) × (n < 192) }
    ensures { Done s.old s.new n h w (reader_row (view (tag_in w) (rest_in w))) result }
{
    match look(w) {
        View::Writer(z) => PlaceResult::Noted(give(s, n, z, h)),
        _ => PlaceResult::Fails,
    }
}

// A head's constant.
fn against_constant(s: &mut [u64], h: u64, w: u64, n: usize) -> PlaceResult
    requires { (woken_part ≤ length s.old) × (n < 192) }
    ensures { Done s.old s.new n h w (constant_row (eqb h w) (view (tag_in w) (rest_in w))) result }
{
    match look(w) {
        View::Writer(z) => PlaceResult::Noted(give(s, n, z, h)),
        View::Reader(z) => PlaceResult::Noted(ask(s, n, z)),
        _ if h == w => PlaceResult::Noted(n),
        _ => PlaceResult::Fails,
    }
}

// A head's compound.
fn against_compound(s: &mut [u64], p: usize, h: u64, w: u64, n: usize) -> PlaceResult
    requires { (woken_part ≤ length s.old) × (n < 192) }
    ensures { Done s.old s.new n h w (compound_row p (view (tag_in w) (rest_in w))) result }
{
    match look(w) {
        View::Writer(z) => PlaceResult::Noted(give(s, n, z, h)),
        View::Reader(z) => PlaceResult::Noted(ask(s, n, z)),
        View::Compound(q) => PlaceResult::Below(p, q),
        _ => PlaceResult::Fails,
    }
}

// One place of the table.
pub fn table(s: &mut [u64], h: u64, w: u64, n: usize) -> PlaceResult
    requires { (woken_part ≤ length s.old) × (n < 192) × ((x : ℕ) → view (tag_in h) (rest_in h) ≡ Writer x → x < 16) }
    ensures { Done s.old s.new n h w (row (eqb h w) (view (tag_in h) (rest_in h)) (view (tag_in w) (rest_in w))) result }
{
    match look(h) {
        View::Writer(x) => against_writer(s, x, h, w, n),
        View::Reader(_) => against_reader(s, h, w, n),
        View::Compound(p) => against_compound(s, p, h, w, n),
        _ => against_constant(s, h, w, n),
    }
}

// Two compounds of different functors or numbers of arguments.
pub fn differ(s: &[u64], p: usize, q: usize) -> bool
    requires { (p < length s.now) × (q < length s.now) }
    ensures { result ≡ not (eqb (get_or s.now p 0) (get_or s.now q 0)) }
{
    s[p] != s[q]
}
