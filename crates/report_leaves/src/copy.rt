// A value that was written before: its bytes stand in the buffer, and are put again.
ghost use Rattle.std.specs.Prelude.{List, ℕ};
ghost use Rattle.meaning.specs.Bytes.{Bytes};
ghost use Rattle.meaning.specs.Terms.{Term};
ghost use Rattle.meaning.specs.Report.{alone, written};
ghost use Rattle.term.specs.Setting.{Setting};
ghost use Rattle.report_pairs.specs.Threaded.{full};
ghost use Rattle.report_pairs.specs.Facts.{Readable, Shows};
ghost use Rattle.report_leaves.specs.Fits.{Fits, Copied};

use crate::source::Source;
use report_pairs::ends::{LENGTH, PLACE, fact, pair};
use report_put::put::again;
use term::word::index;

impl Source<'_> {
    // The value of a variable put again, if it stands before this place as a whole: the place behind it.
    pub fn copied(&self, buffer: &mut [u8], at: usize, w: u64) -> Option<usize>
        requires { (text : Bytes) × (x : Setting) × (order : List ℕ) × (t : Term) × Readable self.now.s.now text x self.now.facts
            × Shows self.now.s.now x t w
            × Fits self.now.s.now x self.now.facts order at buffer.old (written order alone (full x.values t)) }
        ensures { (text : Bytes) (x : Setting) (order : List ℕ) (t : Term) → Readable self.now.s.now text x self.now.facts
            → Shows self.now.s.now x t w
            → Fits self.now.s.now x self.now.facts order at buffer.old (written order alone (full x.values t))
            → Copied buffer.old buffer.new at result (written order alone (full x.values t)) }
    {
        let p = pair(w)?;
        let n = index(fact(self.s, self.facts, p, LENGTH));
        let start = index(fact(self.s, self.facts, p, PLACE));
        if n == 0 || at < n || at - n < start {
            return None;
        }
        Some(again(buffer, at, start, n))
    }
}
