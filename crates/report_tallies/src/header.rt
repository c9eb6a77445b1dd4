// The first lines: of the report, and of each section with the counts of its query.
ghost use Rattle.std.specs.Prelude.{◌≡◌, ◌++◌, ◌+◌, ◌*◌, ◌≤◌, ◌<◌, length, get_or};
ghost use Rattle.meaning.specs.Bytes.{decimal as in_decimal};
ghost use Rattle.meaning.specs.Report.{verdict_bytes};
ghost use Rattle.term.specs.States.{verdict_of};
ghost use Rattle.term.specs.Layout.{figures, InRange, compounds_region};
ghost use Rattle.report_pairs.specs.Laid.{Puts};
ghost use Rattle.report_tallies.specs.Header.{tallies_of, GroupsInside, header_of, run_line_of};

use crate::groups::Group;
use report_pairs::length::digits;
use report_put::put::{decimal, put, words};
use term::layout::{QUERIES, QUERY_STRIDE, QUERY_TRIES, Room};
use term::scratch::word_at;
use term::state::{Standing, Verdict};
use term::word::index;

// The counts of a query's goals.
#[derive(Clone, Copy)]
pub struct Tallies {
    pub tries: usize,
    pub active: usize,
    pub waiting: usize,
    pub failed: usize,
}

impl Tallies {
    pub fn of(s: &[u64], room: Room, q: usize, t: Standing) -> Tallies
        requires { InRange (figures room) × GroupsInside s.now (figures room) t × (q < 8) × (compounds_region ≤ length s.now) }
        ensures { result ≡ tallies_of s.now (figures room) q t }
    {
        Tallies {
            tries: index(word_at(s, QUERIES + QUERY_STRIDE * q, QUERY_TRIES)),
            active: Group::active(room, t).number(s, q),
            waiting: Group::waiting(room, t).number(s, q),
            failed: Group::failed(room, t).number(s, q),
        }
    }

    // "`query K tries T active A waiting W failed F`"
    pub fn header_length(self, q: usize) -> usize
        requires { q < 8 }
        ensures { result ≡ length (header_of q self) }
    {
        39 + digits((q + 1) as u64)
            + digits(self.tries as u64)
            + digits(self.active as u64)
            + digits(self.waiting as u64)
            + digits(self.failed as u64)
    }

    pub fn header(self, buffer: &mut [u8], at: usize, q: usize) -> usize
        requires { (q < 8) × (at + length (header_of q self) ≤ length buffer.old) }
        ensures { Puts buffer.old buffer.new at result (header_of q self) }
    {
        let mut to = count(buffer, at, b"query ", q + 1);
        to = count(buffer, to, b" tries ", self.tries);
        to = count(buffer, to, b" active ", self.active);
        to = count(buffer, to, b" waiting ", self.waiting);
        to = count(buffer, to, b" failed ", self.failed);
        put(buffer, to, b'\n')
    }
}

// A word and a number behind it.
pub fn count(buffer: &mut [u8], at: usize, label: &[u8], n: usize) -> usize
    requires { at + (length label.now + length (in_decimal n)) ≤ length buffer.old }
    ensures { Puts buffer.old buffer.new at result (label.now ++ in_decimal n) }
{
    let to = words(buffer, at, label);
    decimal(buffer, to, n as u64)
}

// A verdict's word.
fn verdict_word(verdict: Verdict) -> &'static [u8]
    ensures { result.now ≡ verdict_bytes (verdict_of verdict) }
{
    match verdict {
        Verdict::Rest => b"rest",
        Verdict::Budget => b"budget",
        Verdict::Room => b"room",
    }
}

// "First `run VERDICT steps N`"
pub fn run_length(verdict: Verdict, steps: usize) -> usize
    ensures { result ≡ length (run_line_of verdict steps) }
{
    12 + verdict_word(verdict).len() + digits(steps as u64)
}

pub fn run_line(buffer: &mut [u8], verdict: Verdict, steps: usize) -> usize
    requires { length (run_line_of verdict steps) ≤ length buffer.old }
    ensures { Puts buffer.old buffer.new 0 result (run_line_of verdict steps) }
{
    let mut to = words(buffer, 0, b"run ");
    to = words(buffer, to, verdict_word(verdict));
    to = count(buffer, to, b" steps ", steps);
    put(buffer, to, b'\n')
}
