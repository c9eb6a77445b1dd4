// The call: "1, 2, 3; then the text item by item; then no query; then 7; then 8."
ghost use Rattle.std.specs.Prelude.{◌≡◌, List, ℕ, ◌≤◌, min, length, Err};
ghost use Rattle.meaning.specs.Bytes.{Bytes};
ghost use Rattle.meaning.specs.Terms.{Job};
ghost use Rattle.meaning.specs.Items.{reading};
ghost use Rattle.meaning.specs.Run.{run as run_of};
ghost use Rattle.meaning.specs.Report.{report as report_of};
ghost use Rattle.meaning.specs.Call.{in_range, delivered, runs, taken as taken_of, call as call_of, number as number_of, line_of, offset_of, length_of};
ghost use Rattle.term.specs.Layout.{need_of, figures, InRange};
ghost use Rattle.term.specs.States.{Ready, Finished};
ghost use Rattle.job.specs.Calling.{answer_of, room_of, given, outcome, told as told_of};
ghost use Rattle.job.specs.declared.call.Unreported.TheVariants.{Refused};

use loader::load::load;
use loader::refusal::Refusal;
use machine::run::run;
use report::report::report;
use term::clear::clear;
use term::layout::Room;
use term::state::{Standing, Verdict};

// Why there is no report: 1, 2 and 3; 4, 11, 5, 9, 10 and 6 as the loader tells them; 7; and 8 with the report's length.
#[derive(Clone, Copy)]
pub enum Unreported {
    OutOfRange,
    ScratchShort,
    TextLong,
    Refused(Refusal),
    QueriesPassRoom,
    ReportLong(usize),
}

impl From<Refusal> for Unreported {
    ghost from_gives = { λ why e. e ≡ Refused why };

    fn from(why: Refusal) -> Unreported {
        Unreported::Refused(why)
    }
}

impl Unreported {
    // Document 01's number of it.
    #[tactic(auto, unfolding(meaning::specs::Call::number))]
    pub fn number(self) -> u32
        ensures { result ≡ number_of (answer_of (Err self)) }
    {
        match self {
            Unreported::OutOfRange => 1,
            Unreported::ScratchShort => 2,
            Unreported::TextLong => 3,
            Unreported::Refused(why) => why.number(),
            Unreported::QueriesPassRoom => 7,
            Unreported::ReportLong(_) => 8,
        }
    }

    // The line, where the text is refused; else 0.
    #[tactic(auto, unfolding(meaning::specs::Call::line_of))]
    pub fn line(self) -> usize
        ensures { result ≡ line_of (answer_of (Err self)) }
    {
        match self {
            Unreported::Refused(why) => why.line(),
            Unreported::OutOfRange
            | Unreported::ScratchShort
            | Unreported::TextLong
            | Unreported::QueriesPassRoom
            | Unreported::ReportLong(_) => 0,
        }
    }

    // "4, 5, 9 and 10 also return a byte offset, 0 with every other number."
    #[tactic(auto, unfolding(meaning::specs::Call::offset_of))]
    pub fn offset(self) -> usize
        ensures { result ≡ offset_of (answer_of (Err self)) }
    {
        match self {
            Unreported::Refused(why) => why.offset(),
            Unreported::OutOfRange
            | Unreported::ScratchShort
            | Unreported::TextLong
            | Unreported::QueriesPassRoom
            | Unreported::ReportLong(_) => 0,
        }
    }

    // The length of the report that was too long; else 0.
    #[tactic(auto, unfolding(meaning::specs::Call::length_of))]
    pub fn length(self) -> usize
        ensures { result ≡ length_of (answer_of (Err self)) }
    {
        match self {
            Unreported::ReportLong(n) => n,
            Unreported::OutOfRange
            | Unreported::ScratchShort
            | Unreported::TextLong
            | Unreported::Refused(_)
            | Unreported::QueriesPassRoom => 0,
        }
    }
}

// "A budget (0 to 1,000,000), three room figures (each 1 to 65,535)."
#[tactic(auto, unfolding(meaning::specs::Call::in_range))]
fn within(budget: usize, room: Room) -> bool
    ensures { result ≡ in_range budget (figures room) }
{
    let figure = 1..=65535;
    budget <= 1000000
        && figure.contains(&room.pairs)
        && figure.contains(&room.compounds)
        && figure.contains(&room.goals)
}

// 0 or 8, by the report's length up to the ceiling and the buffer's.
fn told(n: usize, size: usize) -> Result<usize, Unreported>
    ensures { (long : ℕ) → n ≡ min long 16777217 → answer_of result ≡ told_of long size }
{
    if size < n || 16777216 < n {
        return Err(Unreported::ReportLong(n));
    }
    Ok(n)
}

// The run has ended: its report, and then the needed part is zero.
fn ended(
    text: &[u8],
    s: &mut [u64],
    room: Room,
    queries: usize,
    verdict: Verdict,
    t: Standing,
    buffer: &mut [u8],
) -> Result<usize, Unreported>
    requires { (names : List Bytes) × (j : Job) × (limit : ℕ) × Finished s.old text.now names (figures room) j limit verdict t
        × (queries ≡ length j.queries) × (length text.now ≤ 16384) }
    ensures { (names : List Bytes) (j : Job) (limit : ℕ) → Finished s.old text.now names (figures room) j limit verdict t
        → queries ≡ length j.queries → length text.now ≤ 16384
        → outcome result buffer.new s.new
        ≡ delivered (need_of (figures room)) (report_of j.queries (run_of j limit (figures room)))
        (given text.now limit (figures room) s.old buffer.old) }
{
    let size = buffer.len();
    let n = report(text, s, room, queries, verdict, t, buffer);
    clear(s, room.need());
    told(n, size)
}

// "Then 7; then 8": a loaded job runs.
fn loaded(
    text: &[u8],
    budget: usize,
    room: Room,
    clauses: usize,
    queries: usize,
    s: &mut [u64],
    buffer: &mut [u8],
) -> Result<usize, Unreported>
    requires { (names : List Bytes) × (j : Job) × Ready s.old text.now names (figures room) j
        × (budget ≤ 1000000) × (clauses ≡ length j.clauses) × (queries ≡ length j.queries) × (length text.now ≤ 16384) }
    ensures { (names : List Bytes) (j : Job) → Ready s.old text.now names (figures room) j
        → clauses ≡ length j.clauses → queries ≡ length j.queries → length text.now ≤ 16384
        → outcome result buffer.new s.new
        ≡ runs (need_of (figures room)) j (given text.now budget (figures room) s.old buffer.old) }
{
    let Some((verdict, t)) = run(s, room, budget, clauses, queries) else {
        clear(s, room.need());
        return Err(Unreported::QueriesPassRoom);
    };
    ended(text, s, room, queries, verdict, t, buffer)
}

// The text is loaded, or refused with the needed part zero.
fn taken(
    text: &[u8],
    budget: usize,
    room: Room,
    s: &mut [u64],
    buffer: &mut [u8],
) -> Result<usize, Unreported>
    requires { InRange (figures room) × (need_of (figures room) ≤ length s.old) × (budget ≤ 1000000) × (length text.now ≤ 16384) }
    ensures { outcome result buffer.new s.new
        ≡ taken_of (need_of (figures room)) (reading text.now)
        (given text.now budget (figures room) s.old buffer.old) }
{
    let (clauses, queries) = load(text, s, room)?;
    loaded(text, budget, room, clauses, queries, s, buffer)
}

// The call of document 01: the report's length, or why there is none. It requires nothing.
pub fn call(
    text: &[u8],
    budget: usize,
    pairs: usize,
    compounds: usize,
    goals: usize,
    s: &mut [u64],
    buffer: &mut [u8],
) -> Result<usize, Unreported>
    ensures { outcome result buffer.new s.new
        ≡ call_of need_of (given text.now budget (room_of pairs compounds goals) s.old buffer.old) }
{
    let room = Room {
        pairs,
        compounds,
        goals,
    };
    if !within(budget, room) {
        return Err(Unreported::OutOfRange);
    }
    if s.len() < room.need() {
        return Err(Unreported::ScratchShort);
    }
    if 16384 < text.len() {
        return Err(Unreported::TextLong);
    }
    taken(text, budget, room, s, buffer)
}
