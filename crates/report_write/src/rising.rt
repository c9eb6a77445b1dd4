// What stands behind an argument, and behind the compounds that end with it.
ghost use Rattle.std.specs.Prelude.{◌≡◌, List, ℕ, ◌+◌, ◌≤◌, length};
ghost use Rattle.meaning.specs.Bytes.{Bytes};
ghost use Rattle.term.specs.Setting.{Setting};
ghost use Rattle.report_pairs.specs.Facts.{Readable};
ghost use Rattle.report_write.specs.Frames.{Behind, Frames, Rose};

use report_leaves::source::Source;
use report_pairs::cells::behind;
use report_put::put::put;

// The place in the buffer, and the next argument by its compound and its number, with how many compounds are still around it; none behind them all.
pub type Risen = (usize, Option<(usize, usize, usize)>);

// From behind the argument up to the next one. Of each compound around it 8 times its place and the number of its argument stand in the frames.
pub fn rise(
    source: &Source,
    buffer: &mut [u8],
    frames: &[usize; 16],
    at: usize,
    place: usize,
    number: usize,
    deep: usize,
) -> Risen
    requires { (text : Bytes) × (x : Setting) × (order : List ℕ) × (bs : Bytes) × Readable source.now.s.now text x source.now.facts
        × Behind (Frames frames.now source.now.s.now x source.now.facts order deep) source.now.s.now x source.now.facts order place number bs
        × (at + length bs ≤ length buffer.old) × (deep ≤ 16) }
    ensures { (text : Bytes) (x : Setting) (order : List ℕ) (bs : Bytes) → Readable source.now.s.now text x source.now.facts
        → Behind (Frames frames.now source.now.s.now x source.now.facts order deep) source.now.s.now x source.now.facts order place number bs
        → Rose frames.now source.now.s.now x source.now.facts order buffer.old buffer.new at deep bs result }
{
    let mut to = at;
    let mut p = place;
    let mut i = number;
    let mut depth = deep;
    loop {
        let (b, next) = behind(source.s, source.facts, p, i);
        to = put(buffer, to, b);
        if let Some((q, j)) = next {
            return (to, Some((q, j, depth)));
        }
        if depth == 0 {
            return (to, None);
        }
        depth -= 1;
        let frame = frames[depth];
        p = frame / 8;
        i = frame % 8;
    }
}
