// The trial of a clause, and the choice of a clause among those of a procedure.
ghost use Rattle.std.specs.Prelude.{◌≡◌, List, ℕ, ◌+◌, ◌*◌, ◌≤◌, ◌<◌, length, get_or};
ghost use Rattle.meaning.specs.Bytes.{Bytes};
ghost use Rattle.meaning.specs.Terms.{Clause, Job};
ghost use Rattle.meaning.specs.State.{Room, Goal};
ghost use Rattle.term.specs.Cells.{Places};
ghost use Rattle.term.specs.Frames.{Only};
ghost use Rattle.term.specs.Words.{link_to};
ghost use Rattle.term.specs.Layout.{trial_region, compounds_region, gifts_part, procedure_slot};
ghost use Rattle.run_readers.specs.Readers.{Readers};
ghost use Rattle.run_trial.specs.Choosing.{Trying, ArgumentsStand, MarksBelow, Gathered, Candidate, TrialIs, ChoiceIs};

use run_asked::asking::Hindered;
use run_chains::arguments::follow_arguments;
use run_circle::circle::circle;
use run_compare::heads::head;
use run_guards::guards::guards;
use run_index::leads::{further, to_try};
use run_readers::readers::{asks, meet_all};
use term::clear::clear_part;
use term::layout::{ITEM_WORDS, ITEMS, PROCEDURES, TRIAL};
use term::scratch::word_at;
use term::word::{index, linked};

// "Each trial of a clause gives one of three results": it succeeds, with so many of the goal's pairs given a term; it waits on readers, and the step
// has met so many then; it fails.
// Stays an enum of three: document 01 names it, and that the loop over the clauses takes `Succeeds` apart.
#[derive(Clone, Copy)]
pub enum TrialResult {
    Succeeds(usize),
    Waits(usize),
    Fails,
}

// The head's writers are given nothing yet. All 16 words are set, whatever the clause has: a number that the compiler knows.
fn begin(s: &mut [u64])
    requires { compounds_region ≤ length s.old }
    ensures only { Only trial_region gifts_part s.old s.new }
    ensures nothing { (x : ℕ) → x < 16 → get_or s.new (trial_region + x) 0 ≡ 0 }
{
    clear_part(s, TRIAL, 16);
}

// The trial of clause k on the goal whose arguments were followed, when the step has met so many readers: the places, the circle test, the guards. Of its 256
// stamps the circle test uses one for each pair that is given a term, at most 192.
fn trial(
    s: &mut [u64],
    values: usize,
    marks: usize,
    links: usize,
    k: usize,
    readers: usize,
    stamp: u64,
) -> TrialResult
    requires { (text : Bytes) × (names : List Bytes) × (j : Job) × (limit : ℕ) × (figures : Room) × (at : Places) × (g : Goal) × (others : List Goal) × (goal : ℕ) × (c : Clause)
        × Trying s.old text names j limit figures at g others values marks links goal
        × ArgumentsStand s.old j limit figures at g links
        × Candidate s.old names j g k c
        × MarksBelow s.old marks figures.pairs stamp
        × Readers s.old (marks + figures.pairs) figures.pairs readers × ((1 < stamp) × (stamp + 256 < 1099511627776)) }
    ensures { (text : Bytes) (names : List Bytes) (j : Job) (limit : ℕ) (figures : Room) (at : Places) (g : Goal) (others : List Goal) (goal : ℕ) (c : Clause) (earlier : List ℕ)
        → Trying s.old text names j limit figures at g others values marks links goal
        → ArgumentsStand s.old j limit figures at g links
        → Candidate s.old names j g k c
        → MarksBelow s.old marks figures.pairs stamp
        → Gathered s.old at (marks + figures.pairs) figures.pairs readers earlier
        → TrialIs s.old s.new j limit figures at g marks readers stamp k c earlier result }
{
    begin(s);
    let Some(n) = head(s, values, links, ITEMS + ITEM_WORDS * k) else {
        return TrialResult::Fails;
    };
    if asks(s, n) {
        let met = meet_all(s, marks + links, links, readers, n);
        return TrialResult::Waits(met);
    }
    if circle(s, values, marks, n, stamp) {
        return TrialResult::Fails;
    }
    match guards(s, values, marks, links, k, readers, stamp + 192) {
        Ok(()) => TrialResult::Succeeds(n),
        Err(Hindered::Waits(m)) => TrialResult::Waits(m),
        Err(Hindered::Fails) => TrialResult::Fails,
    }
}

// "Name and number of arguments together select the procedure": its first clause.
fn first_clause(s: &[u64], goal: usize) -> Option<usize>
    requires { (goal < length s.now) × (procedure_slot (get_or s.now goal 0) < length s.now) }
    ensures { link_to result ≡ get_or s.now (procedure_slot (get_or s.now goal 0)) 0 }
{
    let functor = index(word_at(s, goal, 0));
    linked(word_at(s, PROCEDURES - 8, functor))
}

// What becomes of the goal: reduced by a clause, with so many of its pairs given a term; waiting on so many readers; failed.
// "The first clause that succeeds is taken, also when an earlier one waits." Tried are those that the index leaves, in text order: the others fail. Stamps from this
// one on are unused.
pub fn choice(
    s: &mut [u64],
    values: usize,
    marks: usize,
    links: usize,
    goal: usize,
    first: u64,
) -> Result<(usize, usize), Hindered>
    requires { (text : Bytes) × (names : List Bytes) × (j : Job) × (limit : ℕ) × (figures : Room) × (at : Places) × (g : Goal) × (others : List Goal)
        × Trying s.old text names j limit figures at g others values marks links goal
        × MarksBelow s.old marks figures.pairs first × ((1 < first) × (first + 32768 < 1099511627776)) }
    ensures { (text : Bytes) (names : List Bytes) (j : Job) (limit : ℕ) (figures : Room) (at : Places) (g : Goal) (others : List Goal)
        → Trying s.old text names j limit figures at g others values marks links goal
        → MarksBelow s.old marks figures.pairs first
        → ChoiceIs s.old s.new names j limit figures at g marks first result }
{
    let mut readers = 0;
    let mut stamp = first;
    follow_arguments(s, values, links, goal);
    let mut left = to_try(s, word_at(s, goal, 0), first_clause(s, goal));
    'clauses: while let Some(k) = left.next {
        let t = trial(s, values, marks, links, k, readers, stamp);
        let TrialResult::Succeeds(n) = t else {
            if let TrialResult::Waits(m) = t {
                readers = m;
            }
            stamp += 256;
            left = further(s, k, left);
            continue 'clauses;
        };
        return Ok((k, n));
    }
    if readers == 0 {
        return Err(Hindered::Fails);
    }
    Err(Hindered::Waits(readers))
}
