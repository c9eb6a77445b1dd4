// The section of a query: its counts, the values of its variables, its goals.
ghost use Rattle.std.specs.Prelude.{◌≡◌, List, [], ◌∷◌, ◌++◌, ℕ, ◌+◌, ◌*◌, ◌/◌, ◌≤◌, ◌<◌, length, get_or, set, true, false};
ghost use Rattle.meaning.specs.Bytes.{Bytes, bytes};
ghost use Rattle.meaning.specs.Terms.{writer, Term};
ghost use Rattle.meaning.specs.State.{Goal};
ghost use Rattle.meaning.specs.Report.{alone, written};
ghost use Rattle.term.specs.Setting.{Setting};
ghost use Rattle.report_pairs.specs.Threaded.{full, seen_after, shown, shown_values, seen_after_values, shown_goals, seen_after_goals};
ghost use Rattle.report_pairs.specs.Laid.{Puts};
ghost use Rattle.report_pairs.specs.Facts.{Readable, Shows};
ghost use Rattle.report_count.specs.Counts.{Counts, Counted};
ghost use Rattle.report_leaves.specs.Fits.{Fits};
ghost use Rattle.report_leaves.specs.Writes.{Numbered, Writes};
ghost use Rattle.report_tallies.specs.Groups.{goal_in, GroupInside, own as own_word};
ghost use Rattle.term.specs.Layout.{figures, items_region, trial_region, compounds_region, query_pairs_word, query_first_pair_word, query_variables_from};
ghost use Rattle.report_tallies.specs.Header.{header_of, tallies_of};
ghost use Rattle.report_pairs.specs.Threaded.{written_values, lines_seen};
ghost use Rattle.report_sections.specs.Sections.{Variables, Listed, SectionAt};
ghost use Rattle.report_pairs.specs.Threaded.{written_goals};
ghost use Rattle.report_sections.specs.Whole.{SectionStands, Uncounted, Numbers, SectionCounted, section_bytes, AllIn};
ghost use Rattle.term.specs.Layout.{waiters_region};
ghost use Rattle.term.specs.Words.{writer_word, compound_word};
ghost use Rattle.term.specs.Goals.{place_in};
ghost use Rattle.report_tallies.specs.Origins.{origin_of};

use report_count::counting::count_term;
use report_leaves::source::Source;
use report_pairs::length::further;
use report_put::put::{put, spelling, words};
use report_tallies::groups::{Group, own};
use report_tallies::header::Tallies;
use report_tallies::origin::{origin, origin_length};
use report_write::terms::write_term;
use term::goal::place_of;
use term::layout::{
    QUERIES, QUERY_FIRST_PAIR, QUERY_PAIRS, QUERY_STRIDE, QUERY_VARIABLES, Room, TRIAL,
};
use term::scratch::word_at;
use term::state::Standing;
use term::word::{COMPOUND, TAGS, WRITER, index};

// What the lines of the three lists' goals begin with.
const ACTIVE: &[u8] = b"active ";

const WAITING: &[u8] = b"waiting ";

const FAILED: &[u8] = b"failed ";

// A line: so many bytes, a term and so many bytes.
fn count_line(s: &mut [u64], facts: usize, at: usize, before: usize, w: u64, behind: usize) -> usize
    requires { (text : Bytes) × (x : Setting) × (seen : List ℕ) × (t : Term) × Counts s.old text x facts seen at × Shows s.old x t w }
    ensures { (text : Bytes) (x : Setting) (seen : List ℕ) (t : Term) (front back : Bytes) → Counts s.old text x facts seen at
        → Shows s.old x t w → before ≡ length front → behind ≡ length back
        → Counted s.old s.new text x facts at seen (front ++ (shown seen alone (full x.values t) ++ back))
        (seen_after seen (full x.values t)) result }
{
    let from = further(at, before);
    let to = count_term(s, facts, from, w);
    further(to, behind)
}

// A term and an LF.
fn write_line(source: &Source, buffer: &mut [u8], at: usize, w: u64) -> usize
    requires { (x : Setting) × (order : List ℕ) × (t : Term)
        × Writes source.now.s.now source.now.text.now x source.now.facts order t at (length buffer.old) × Shows source.now.s.now x t w
        × Fits source.now.s.now x source.now.facts order at buffer.old (written order alone (full x.values t) ++ bytes "\n") }
    ensures { (x : Setting) (order : List ℕ) (t : Term)
        → Writes source.now.s.now source.now.text.now x source.now.facts order t at (length buffer.old)
        → Shows source.now.s.now x t w
        → Fits source.now.s.now x source.now.facts order at buffer.old (written order alone (full x.values t) ++ bytes "\n")
        → Puts buffer.old buffer.new at result (written order alone (full x.values t) ++ bytes "\n") }
{
    let to = write_term(source, buffer, at, w);
    put(buffer, to, b'\n')
}

// The word of the query's v-th variable.
fn variable(s: &[u64], q: usize, v: usize) -> u64
    requires { (q < 8) × (v < 16) × (items_region ≤ length s.now) × (get_or s.now (query_first_pair_word q) 0 ≤ 65535) }
    ensures { result ≡ writer_word (get_or s.now (query_first_pair_word q) 0 + v) }
{
    WRITER + TAGS * (word_at(s, QUERIES + QUERY_STRIDE * q, QUERY_FIRST_PAIR) + v as u64)
}

// The number of the query's variables.
fn variables(s: &[u64], q: usize) -> usize
    requires { (q < 8) × (items_region ≤ length s.now) }
    ensures { result ≡ get_or s.now (query_pairs_word q) 0 }
{
    index(word_at(s, QUERIES + QUERY_STRIDE * q, QUERY_PAIRS))
}

// Where the spelling of the query's v-th variable begins, and how long it is.
fn spelled(s: &[u64], q: usize, v: usize) -> (usize, usize)
    requires { (q < 8) × (v < 16) × (items_region ≤ length s.now) }
    ensures { (result.0 ≡ get_or s.now (query_variables_from q + 2 * v) 0) × (result.1 ≡ get_or s.now (query_variables_from q + 2 * v + 1) 0) }
{
    let at = QUERIES + QUERY_STRIDE * q + QUERY_VARIABLES + 2 * v;
    (index(word_at(s, at, 0)), index(word_at(s, at, 1)))
}

// "`NAME = value` for each pair of the query in order of first occurrence"
fn count_value(s: &mut [u64], facts: usize, at: usize, q: usize, v: usize) -> usize
    requires { (text : Bytes) × (x : Setting) × (seen : List ℕ) × (xs : List Bytes) × Counts s.old text x facts seen at × Variables s.old text x q xs
        × (v < length xs) }
    ensures { (text : Bytes) (x : Setting) (seen : List ℕ) (xs : List Bytes) → Counts s.old text x facts seen at → Variables s.old text x q xs
        → v < length xs
        → Counted s.old s.new text x facts at seen
        ((get_or xs v [] ++ bytes " = ") ++ (shown seen alone (full x.values (Term.variable writer v)) ++ bytes "\n"))
        (seen_after seen (full x.values (Term.variable writer v))) result }
{
    let (_, n) = spelled(s, q, v);
    let w = variable(s, q, v);
    count_line(s, facts, at, n + 3, w, 1)
}

fn count_values(s: &mut [u64], facts: usize, at: usize, q: usize) -> usize
    requires { (text : Bytes) × (x : Setting) × (seen : List ℕ) × (xs : List Bytes) × Counts s.old text x facts seen at
        × Variables s.old text x q xs }
    ensures { (text : Bytes) (x : Setting) (seen : List ℕ) (xs : List Bytes) → Counts s.old text x facts seen at → Variables s.old text x q xs
        → Counted s.old s.new text x facts at seen (shown_values x.values seen 0 xs) (seen_after_values x.values seen 0 xs) result }
{
    let mut to = at;
    for v in 0..variables(s, q) {
        to = count_value(s, facts, to, q, v);
    }
    to
}

// The word of a goal's term.
fn goal_term(goal: u64) -> u64
    ensures { result ≡ compound_word (place_in goal) }
{
    COMPOUND + TAGS * place_of(goal) as u64
}

// The line of the i-th goal of a list, if it is one of the query's.
fn count_goal(
    s: &mut [u64],
    facts: usize,
    at: usize,
    label: &[u8],
    g: Group,
    q: usize,
    i: usize,
) -> usize
    requires { (text : Bytes) × (x : Setting) × (seen : List ℕ) × (t : Term) × Counts s.old text x facts seen at × GroupInside s.old g × (i < g.count)
        × (own_word q (goal_in s.old g i) ≡ true → Shows s.old x t (compound_word (place_in (goal_in s.old g i)))) }
    ensures { (own_word q (goal_in s.old g i) ≡ false → (result ≡ at) × (s.new ≡ s.old))
        × ((text : Bytes) (x : Setting) (seen : List ℕ) (t : Term) → own_word q (goal_in s.old g i) ≡ true
        → Counts s.old text x facts seen at → Shows s.old x t (compound_word (place_in (goal_in s.old g i)))
        → Counted s.old s.new text x facts at seen
        (label.now ++ (shown seen alone (full x.values t) ++ (origin_of (goal_in s.old g i) ++ bytes "\n")))
        (seen_after seen (full x.values t)) result) }
{
    let goal = g.goal_at(s, i);
    if own(goal, q) {
        let w = goal_term(goal);
        let behind = origin_length(goal) + 1;
        return count_line(s, facts, at, label.len(), w, behind);
    }
    at
}

// "`active GOAL`, `waiting GOAL` and `failed GOAL` lines, each group in the machine's order"
fn count_goals(s: &mut [u64], facts: usize, at: usize, label: &[u8], g: Group, q: usize) -> usize
    requires { (text : Bytes) × (x : Setting) × (seen : List ℕ) × (gs : List Goal) × Counts s.old text x facts seen at × Listed s.old x facts g q gs }
    ensures { (text : Bytes) (x : Setting) (seen : List ℕ) (gs : List Goal) → Counts s.old text x facts seen at → Listed s.old x facts g q gs
        → Counted s.old s.new text x facts at seen (shown_goals x.values seen label.now gs) (seen_after_goals x.values seen gs) result }
{
    let mut to = at;
    for i in 0..g.count {
        to = count_goal(s, facts, to, label, g, q, i);
    }
    to
}

// A variable's name, ` = `, its value and an LF.
fn write_value(source: &Source, buffer: &mut [u8], at: usize, q: usize, v: usize) -> usize
    requires { (x : Setting) × (order : List ℕ) × (xs : List Bytes) × Variables source.now.s.now source.now.text.now x q xs × (v < length xs)
        × Writes source.now.s.now source.now.text.now x source.now.facts order (Term.variable writer v) (at + length (get_or xs v []) + 3) (length buffer.old)
        × Fits source.now.s.now x source.now.facts order at buffer.old
        ((get_or xs v [] ++ bytes " = ") ++ (written order alone (full x.values (Term.variable writer v)) ++ bytes "\n")) }
    ensures { (x : Setting) (order : List ℕ) (xs : List Bytes) → Variables source.now.s.now source.now.text.now x q xs → v < length xs
        → Writes source.now.s.now source.now.text.now x source.now.facts order (Term.variable writer v) (at + length (get_or xs v []) + 3) (length buffer.old)
        → Fits source.now.s.now x source.now.facts order at buffer.old
        ((get_or xs v [] ++ bytes " = ") ++ (written order alone (full x.values (Term.variable writer v)) ++ bytes "\n"))
        → Puts buffer.old buffer.new at result
        ((get_or xs v [] ++ bytes " = ") ++ (written order alone (full x.values (Term.variable writer v)) ++ bytes "\n")) }
{
    let (from, n) = spelled(source.s, q, v);
    let mut to = spelling(source.text, buffer, at, from, n);
    to = words(buffer, to, b" = ");
    let w = variable(source.s, q, v);
    write_line(source, buffer, to, w)
}

fn write_values(source: &Source, buffer: &mut [u8], at: usize, q: usize) -> usize
    requires { (x : Setting) × (order : List ℕ) × (xs : List Bytes) × Readable source.now.s.now source.now.text.now x source.now.facts
        × Variables source.now.s.now source.now.text.now x q xs
        × ((n : ℕ) → n < length xs → Numbered source.now.s.now x source.now.facts order (full x.values (Term.variable writer n)))
        × Fits source.now.s.now x source.now.facts order at buffer.old (written_values x.values order 0 xs) }
    ensures { (x : Setting) (order : List ℕ) (xs : List Bytes) → Readable source.now.s.now source.now.text.now x source.now.facts
        → Variables source.now.s.now source.now.text.now x q xs
        → ((n : ℕ) → n < length xs → Numbered source.now.s.now x source.now.facts order (full x.values (Term.variable writer n)))
        → Fits source.now.s.now x source.now.facts order at buffer.old (written_values x.values order 0 xs)
        → Puts buffer.old buffer.new at result (written_values x.values order 0 xs) }
{
    let mut to = at;
    for v in 0..variables(source.s, q) {
        to = write_value(source, buffer, to, q, v);
    }
    to
}

// The line of a goal, with its origin behind it.
fn write_goal(source: &Source, buffer: &mut [u8], at: usize, label: &[u8], goal: u64) -> usize
    requires { (x : Setting) × (order : List ℕ) × (t : Term)
        × Writes source.now.s.now source.now.text.now x source.now.facts order t (at + length label.now) (length buffer.old)
        × Shows source.now.s.now x t (compound_word (place_in goal))
        × Fits source.now.s.now x source.now.facts order at buffer.old (label.now ++ (written order alone (full x.values t) ++ (origin_of goal ++ bytes "\n"))) }
    ensures { (x : Setting) (order : List ℕ) (t : Term)
        → Writes source.now.s.now source.now.text.now x source.now.facts order t (at + length label.now) (length buffer.old)
        → Shows source.now.s.now x t (compound_word (place_in goal))
        → Fits source.now.s.now x source.now.facts order at buffer.old
        (label.now ++ (written order alone (full x.values t) ++ (origin_of goal ++ bytes "\n")))
        → Puts buffer.old buffer.new at result
        (label.now ++ (written order alone (full x.values t) ++ (origin_of goal ++ bytes "\n"))) }
{
    let mut to = words(buffer, at, label);
    let w = goal_term(goal);
    to = write_term(source, buffer, to, w);
    to = origin(buffer, to, goal);
    put(buffer, to, b'\n')
}

// The length of the section behind so many bytes; every pair that it shows has its number.
fn count_lines(s: &mut [u64], room: Room, facts: usize, at: usize, q: usize, t: Standing) -> usize
    requires { (text : Bytes) × (x : Setting) × (xs : List Bytes) × (actives : List Goal) × (ws : List Goal) × (fs : List Goal)
        × Counts s.old text x facts [] at
        × SectionAt s.old text x facts (figures room) t q xs actives ws fs }
    ensures { (text : Bytes) (x : Setting) (xs : List Bytes) (actives ws fs : List Goal) → Counts s.old text x facts [] at
        → SectionAt s.old text x facts (figures room) t q xs actives ws fs
        → Counted s.old s.new text x facts at [] (section_bytes s.old (figures room) t x.values q xs actives ws fs)
        (lines_seen x.values xs actives ws fs) result }
{
    let c = Tallies::of(s, room, q, t);
    let mut to = further(at, c.header_length(q));
    to = count_values(s, facts, to, q);
    to = count_goals(s, facts, to, ACTIVE, Group::active(room, t), q);
    to = count_goals(s, facts, to, WAITING, Group::waiting(room, t), q);
    count_goals(s, facts, to, FAILED, Group::failed(room, t), q)
}

// The lines of a list's goals that are the query's.
fn write_goals(
    source: &Source,
    buffer: &mut [u8],
    at: usize,
    label: &[u8],
    g: Group,
    q: usize,
) -> usize
    requires { (x : Setting) × (order : List ℕ) × (gs : List Goal) × Readable source.now.s.now source.now.text.now x source.now.facts
        × Listed source.now.s.now x source.now.facts g q gs
        × Numbers source.now.s.now x source.now.facts order × AllIn x.values order gs
        × Fits source.now.s.now x source.now.facts order at buffer.old (written_goals x.values order label.now gs) }
    ensures { (x : Setting) (order : List ℕ) (gs : List Goal) → Readable source.now.s.now source.now.text.now x source.now.facts
        → Listed source.now.s.now x source.now.facts g q gs → Numbers source.now.s.now x source.now.facts order → AllIn x.values order gs
        → Fits source.now.s.now x source.now.facts order at buffer.old (written_goals x.values order label.now gs)
        → Puts buffer.old buffer.new at result (written_goals x.values order label.now gs) }
{
    let mut to = at;
    for i in 0..g.count {
        let goal = g.goal_at(source.s, i);
        if own(goal, q) {
            to = write_goal(source, buffer, to, label, goal);
        }
    }
    to
}

// No number is given yet.
fn restart(s: &mut [u64])
    requires { compounds_region ≤ length s.old }
    ensures { s.new ≡ set s.old trial_region 0 }
{
    s[TRIAL] = 0;
}

// A section counted behind so many bytes.
pub fn count_section(s: &mut [u64], room: Room, at: usize, q: usize, t: Standing) -> usize
    requires { (text : Bytes) × (x : Setting) × (xs : List Bytes) × (actives : List Goal) × (ws : List Goal) × (fs : List Goal)
        × SectionStands s.old text x (figures room) t q xs actives ws fs × Uncounted s.old x (waiters_region (figures room)) × (at ≤ 16777217) }
    ensures { (text : Bytes) (x : Setting) (xs : List Bytes) (actives ws fs : List Goal)
        → SectionStands s.old text x (figures room) t q xs actives ws fs → Uncounted s.old x (waiters_region (figures room)) → at ≤ 16777217
        → SectionCounted s.old s.new text x (figures room) t q xs actives ws fs at result }
{
    restart(s);
    count_lines(s, room, room.waiters(), at, q, t)
}

// A section written: its pairs have their numbers, and it fits.
pub fn write_section(
    text: &[u8],
    s: &[u64],
    room: Room,
    buffer: &mut [u8],
    at: usize,
    q: usize,
    t: Standing,
) -> usize
    requires { (x : Setting) × (xs : List Bytes) × (actives : List Goal) × (ws : List Goal) × (fs : List Goal)
        × SectionStands s.now text.now x (figures room) t q xs actives ws fs
        × Numbers s.now x (waiters_region (figures room)) (lines_seen x.values xs actives ws fs)
        × Fits s.now x (waiters_region (figures room)) (lines_seen x.values xs actives ws fs) at buffer.old
        (section_bytes s.now (figures room) t x.values q xs actives ws fs) }
    ensures { (x : Setting) (xs : List Bytes) (actives ws fs : List Goal)
        → SectionStands s.now text.now x (figures room) t q xs actives ws fs
        → Numbers s.now x (waiters_region (figures room)) (lines_seen x.values xs actives ws fs)
        → Fits s.now x (waiters_region (figures room)) (lines_seen x.values xs actives ws fs) at buffer.old
        (section_bytes s.now (figures room) t x.values q xs actives ws fs)
        → Puts buffer.old buffer.new at result (section_bytes s.now (figures room) t x.values q xs actives ws fs) }
{
    let facts = room.waiters();
    let source = Source { text, s, facts };
    let mut to = Tallies::of(s, room, q, t).header(buffer, at, q);
    to = write_values(&source, buffer, to, q);
    to = write_goals(&source, buffer, to, ACTIVE, Group::active(room, t), q);
    to = write_goals(&source, buffer, to, WAITING, Group::waiting(room, t), q);
    write_goals(&source, buffer, to, FAILED, Group::failed(room, t), q)
}
