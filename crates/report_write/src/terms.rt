// "Values are written out with every assignment applied": a term is put into the buffer, which has the room for it. Its unassigned pairs have their
// numbers.
ghost use Rattle.std.specs.Prelude.{List, ℕ, ◌+◌, ◌*◌, ◌≤◌, ◌<◌, ◌/◌, length};
ghost use Rattle.meaning.specs.Bytes.{Bytes};
ghost use Rattle.meaning.specs.Terms.{Term};
ghost use Rattle.meaning.specs.Report.{alone, written};
ghost use Rattle.term.specs.Setting.{Setting};
ghost use Rattle.report_pairs.specs.Threaded.{full};
ghost use Rattle.report_pairs.specs.Laid.{Puts};
ghost use Rattle.report_pairs.specs.Facts.{Readable, Shows};
ghost use Rattle.report_leaves.specs.Fits.{Fits};
ghost use Rattle.report_leaves.specs.Writes.{Writes};
ghost use Rattle.report_write.specs.Frames.{Before, Nothing};

use crate::rising::rise;
use report_leaves::source::Source;
use report_pairs::ends::end;
use term::scratch::word_at;
use term::word::{View, look};

// What stands behind a compound's opening; "lists as `[a,b]` or `[a|T]`": a list goes on with the cell that is its tail. A term and its argument list
// alternate: `write_term` calls this function, and this function calls `write_term`, each time with fewer bytes of the buffer left. The places of up to 16
// compounds, one in the other, are kept in the frames, so only a compound deeper in is such a call. A value that stands in the buffer already is copied.
#[cycle(write_arguments_write_term)]
fn write_arguments(source: &Source, buffer: &mut [u8], at: usize, first: usize) -> usize
    requires { (x : Setting) × (order : List ℕ) × (bs : Bytes) × Readable source.now.s.now source.now.text.now x source.now.facts
        × Before Nothing source.now.s.now x source.now.facts order first 1 bs × Fits source.now.s.now x source.now.facts order at buffer.old bs }
    ensures { (x : Setting) (order : List ℕ) (bs : Bytes) → Readable source.now.s.now source.now.text.now x source.now.facts
        → Before Nothing source.now.s.now x source.now.facts order first 1 bs → Fits source.now.s.now x source.now.facts order at buffer.old bs
        → Puts buffer.old buffer.new at result bs }
{
    // Stays packed, eight times a place and an argument's number in one word: pairs would take 128 bytes of stack more of each call, and the deepest value is
    // written by thousands of calls, one in the other.
    let mut frames = [0usize; 16];
    let mut depth = 0;
    let mut to = at;
    let mut p = first;
    let mut i = 1;
    loop {
        let a = word_at(source.s, p, i);
        let e = end(source.s, source.facts, a);
        to = match look(e) {
            View::Compound(q) if depth < 16 => match source.copied(buffer, to, a) {
                Some(t) => t,
                None => {
                    to = source.opening(buffer, to, q);
                    frames[depth] = 8 * p + i;
                    depth += 1;
                    p = q;
                    i = 1;
                    continue;
                }
            },
            View::Compound(_) => write_term(source, buffer, to, a),
            _ => source.leaf(buffer, to, e),
        };
        let (t, next) = rise(source, buffer, &frames, to, p, i, depth);
        let Some((q, j, d)) = next else {
            return t;
        };
        to = t;
        p = q;
        i = j;
        depth = d;
    }
}

// A term, standing alone.
#[cycle(write_arguments_write_term)]
pub fn write_term(source: &Source, buffer: &mut [u8], at: usize, w: u64) -> usize
    requires { (x : Setting) × (order : List ℕ) × (t : Term)
        × Writes source.now.s.now source.now.text.now x source.now.facts order t at (length buffer.old) × Shows source.now.s.now x t w
        × Fits source.now.s.now x source.now.facts order at buffer.old (written order alone (full x.values t)) }
    ensures { (x : Setting) (order : List ℕ) (t : Term)
        → Writes source.now.s.now source.now.text.now x source.now.facts order t at (length buffer.old)
        → Shows source.now.s.now x t w → Fits source.now.s.now x source.now.facts order at buffer.old (written order alone (full x.values t))
        → Puts buffer.old buffer.new at result (written order alone (full x.values t)) }
{
    let e = end(source.s, source.facts, w);
    match look(e) {
        View::Compound(q) => {
            if let Some(to) = source.copied(buffer, at, w) {
                return to;
            }
            let to = source.opening(buffer, at, q);
            write_arguments(source, buffer, to, q)
        }
        _ => source.leaf(buffer, at, e),
    }
}
