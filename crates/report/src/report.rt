// The report: counted, then written if it fits.
ghost use Rattle.std.specs.Prelude.{◌≡◌, List, ℕ, ◌+◌, ◌≤◌, ◌<◌, length, get_or, set};
ghost use Rattle.meaning.specs.Bytes.{Bytes};
ghost use Rattle.meaning.specs.Terms.{Job};
ghost use Rattle.term.specs.Layout.{figures, compounds_region, pairs_told};
ghost use Rattle.term.specs.States.{Finished};
ghost use Rattle.term.specs.Layout.{waiters_region};
ghost use Rattle.report_pairs.specs.Laid.{Puts};
ghost use Rattle.report_leaves.specs.Fits.{Stored};
ghost use Rattle.report_sections.specs.Whole.{Uncounted, Numbers};
ghost use Rattle.report.specs.All.{Made, Sections, AllCounted, order_of, report_bytes};
ghost use Rattle.report.specs.Promise.{ReportIs};

use report_pairs::ends::forget;
use report_pairs::length::CEILING;
use report_sections::sections::{count_section, write_section};
use report_tallies::header::{run_length, run_line};
use term::layout::{Room, TRIAL};
use term::state::{Standing, Verdict};

// The number of the room's pairs, for the chains' ends.
fn note_pairs(s: &mut [u64], pairs: usize)
    requires { compounds_region ≤ length s.old }
    ensures { s.new ≡ set s.old pairs_told pairs }
{
    s[TRIAL + 1] = pairs as u64;
}

// The length of the report up to the ceiling.
fn count_report(s: &mut [u64], room: Room, queries: usize, verdict: Verdict, t: Standing) -> usize
    requires { (text : Bytes) × (made : ℕ → Made) × Sections s.old text (figures room) t made queries × (t.steps ≤ 1000000)
        × ((k : ℕ) → k < queries → Uncounted s.old (made k).unit (waiters_region (figures room))) }
    ensures { (text : Bytes) (made : ℕ → Made) → Sections s.old text (figures room) t made queries → t.steps ≤ 1000000
        → ((k : ℕ) → k < queries → Uncounted s.old (made k).unit (waiters_region (figures room)))
        → AllCounted s.old s.new text (figures room) verdict t made queries result }
{
    let mut to = run_length(verdict, t.steps);
    for q in 0..queries {
        to = count_section(s, room, to, q, t);
    }
    to
}

// The report written to the front of the buffer, section by section.
fn write_report(
    text: &[u8],
    s: &[u64],
    room: Room,
    buffer: &mut [u8],
    queries: usize,
    verdict: Verdict,
    t: Standing,
) -> usize
    requires { (made : ℕ → Made) × Sections s.now text.now (figures room) t made queries × (t.steps ≤ 1000000)
        × ((k : ℕ) → k < queries → Numbers s.now (made k).unit (waiters_region (figures room)) (order_of (made k)))
        × ((k : ℕ) → k < queries → Stored s.now (made k).unit (waiters_region (figures room)) (order_of (made k))
        (report_bytes s.now (figures room) verdict t made queries))
        × (length (report_bytes s.now (figures room) verdict t made queries) ≤ length buffer.old) }
    ensures { (made : ℕ → Made) → Sections s.now text.now (figures room) t made queries → t.steps ≤ 1000000
        → ((k : ℕ) → k < queries → Numbers s.now (made k).unit (waiters_region (figures room)) (order_of (made k)))
        → ((k : ℕ) → k < queries → Stored s.now (made k).unit (waiters_region (figures room)) (order_of (made k))
        (report_bytes s.now (figures room) verdict t made queries))
        → length (report_bytes s.now (figures room) verdict t made queries) ≤ length buffer.old
        → Puts buffer.old buffer.new 0 result (report_bytes s.now (figures room) verdict t made queries) }
{
    let mut to = run_line(buffer, verdict, t.steps);
    for q in 0..queries {
        to = write_section(text, s, room, buffer, to, q, t);
    }
    to
}

// The length of the report up to the ceiling; the report stands at the front of the buffer if it fits it and stays below the ceiling, else the buffer
// is as it was.
pub fn report(
    text: &[u8],
    s: &mut [u64],
    room: Room,
    queries: usize,
    verdict: Verdict,
    t: Standing,
    buffer: &mut [u8],
) -> usize
    requires { (names : List Bytes) × (j : Job) × (limit : ℕ) × Finished s.old text.now names (figures room) j limit verdict t
        × (queries ≡ length j.queries) × (length text.now ≤ 16384) }
    ensures { (names : List Bytes) (j : Job) (limit : ℕ) → Finished s.old text.now names (figures room) j limit verdict t
        → queries ≡ length j.queries → length text.now ≤ 16384
        → ReportIs s.old s.new buffer.old buffer.new (figures room) j limit result }
{
    forget(s, room.waiters(), t.pairs);
    note_pairs(s, room.pairs);
    let n = count_report(s, room, queries, verdict, t);
    if n == CEILING {
        return n;
    }
    if buffer.len() < n {
        return n;
    }
    write_report(text, s, room, buffer, queries, verdict, t)
}
