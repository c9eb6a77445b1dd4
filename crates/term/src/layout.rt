// The regions of the scratch, in 64-bit words, for the room figures P pairs, C compounds and G goals. Every region, part of a region and stride has its
// name here and, in the same words, in specs/Layout; no other crate has its number. A compound's place is the number of its first word: its functor's,
// behind which its arguments' stand.
//
//      0  NAMES       2 a name, 256 names: where it first stands in the text, and its length
//    512  PROCEDURES  at 8 * name + arguments: the first clause of that procedure, plus one
//   2560  CLAUSES     CLAUSE_STRIDE = 32 a clause, 128 clauses: at CLAUSE_NEXT the next clause of its procedure, plus one; at CLAUSE_PAIRS,
//                     CLAUSE_COMPOUNDS, CLAUSE_GOALS and CLAUSE_GUARDS how many it has; at CLAUSE_BODY the body goals' words; at CLAUSE_TESTS the
//                     guards' words; from CLAUSE_KEY on what the run keeps to find clauses (crate `run_index`)
//   6656  QUERIES     QUERY_STRIDE = 64 a query, 8 queries: at QUERY_GOALS, QUERY_PAIRS and QUERY_COMPOUNDS how many it has; at QUERY_FIRST_PAIR and
//                     QUERY_TRIES what the run counts; at QUERY_BODY the goals' words; at QUERY_VARIABLES the variables' first bytes and lengths,
//                     2 a variable
//   7168  ITEMS       COMPOUND_WORDS = 8 a compound, ITEM_COMPOUNDS = 32 compounds an item, 128 clauses and 8 queries
//  41984  TRIAL       what a step works with, in four parts:
//  41984                the head's writers: 16 words, what each is given, or 0
//  42000  GIFTS         2 words for each of the goal's pairs that a trial notes, 192 of them: the pair, and the term of the head that it is given, or 0
//                       where the trial waits on its reader
//  42384  WOKEN         192 words: the places in the waiting log of the goals woken
//  42576  FOLLOWED      at 1 to 6 the goal's arguments, followed; 48 words in all
//                     When the run has ended, the report keeps the pairs numbered so far in the first word, and P in the second.
//  42624  COMPOUNDS   8 C: one behind the other, each with as many words as it has arguments and one
//         values      1 a pair: what it was assigned, or 0
//         waiters     1 a pair: the place in the waiting log of the goal that waits on it, plus one
//         sets        1 a pair: the next pair that the same goal waits on, plus one
//         marks       1 a pair: 0; 1 if no unassigned pair is reached from it; else the stamp of the last search of the circle test that visited it,
//                     and 2^40 times one more than the place of the pair through which all ways to unassigned pairs go, if one is known
//         readers     1 a pair: the pairs whose readers the clauses tried in this step wait on, each once
//         ranks       1 a pair: where a pair stands among them, if it does; what stands here of any other pair says nothing
//         ends        1 a pair: where its chain was seen to lead, or 0; ENDS_AFTER = 6 words a pair behind the values
//         queue       1 a goal
//         waiting     4 a goal: two places a goal, each with the goal and the first pair it waits on
//         failed      1 a goal
//
// The report has waiters to readers as PAIR_FACTS = 4 words a pair for purposes of its own.

ghost use Rattle.std.specs.Prelude.{◌≡◌, ◌+◌, ◌*◌, ◌≤◌};
ghost use Rattle.term.specs.Layout.{need_of, figures, InRange, values_region, waiters_region, sets_region, marks_region, readers_region, ends_region, queue_region, waiting_region, failed_region};

pub const NAMES: usize = 0;

pub const PROCEDURES: usize = NAMES + 512;

pub const CLAUSES: usize = PROCEDURES + 2048;

pub const CLAUSE_STRIDE: usize = 32;

pub const CLAUSE_NEXT: usize = 0;

pub const CLAUSE_PAIRS: usize = 1;

pub const CLAUSE_COMPOUNDS: usize = 2;

pub const CLAUSE_GOALS: usize = 3;

pub const CLAUSE_BODY: usize = 4;

pub const CLAUSE_GUARDS: usize = 12;

pub const CLAUSE_TESTS: usize = 16;

pub const CLAUSE_KEY: usize = 24;

pub const CLAUSE_SAME: usize = 25;

pub const CLAUSE_OPEN: usize = 26;

pub const CLAUSE_LATER: usize = 27;

pub const CLAUSE_FIRST: usize = 28;

pub const CLAUSE_TOLD: usize = 29;

pub const CLAUSE_MANY: usize = 30;

pub const QUERIES: usize = CLAUSES + 128 * CLAUSE_STRIDE;

pub const QUERY_STRIDE: usize = 64;

pub const QUERY_GOALS: usize = 0;

pub const QUERY_PAIRS: usize = 1;

pub const QUERY_COMPOUNDS: usize = 2;

pub const QUERY_FIRST_PAIR: usize = 3;

pub const QUERY_TRIES: usize = 4;

pub const QUERY_BODY: usize = 8;

pub const QUERY_VARIABLES: usize = 16;

pub const ITEMS: usize = QUERIES + 8 * QUERY_STRIDE;

pub const ITEM_COMPOUNDS: usize = 32;

pub const COMPOUND_WORDS: usize = 8;

pub const ITEM_WORDS: usize = ITEM_COMPOUNDS * COMPOUND_WORDS;

pub const TRIAL: usize = ITEMS + 136 * ITEM_WORDS;

pub const GIFTS: usize = TRIAL + 16;

pub const WOKEN: usize = GIFTS + 384;

pub const FOLLOWED: usize = WOKEN + 192;

pub const COMPOUNDS: usize = TRIAL + 640;

pub const ENDS_AFTER: usize = 6;

pub const PAIR_FACTS: usize = 4;

// The room figures that a call is given.
#[derive(Clone, Copy)]
pub struct Room {
    pub pairs: usize,
    pub compounds: usize,
    pub goals: usize,
}

impl Room {
    // The first word behind the compounds, so many words a pair and so many a goal.
    fn behind(self, pairs: usize, goals: usize) -> usize
        requires { InRange (figures self) × (pairs ≤ 64) × (goals ≤ 6) }
        ensures { result ≡ values_region (figures self) + pairs * self.pairs + goals * self.goals }
    {
        COMPOUNDS + COMPOUND_WORDS * self.compounds + pairs * self.pairs + goals * self.goals
    }

    // How many words of the scratch a call needs.
    pub fn need(self) -> usize
        requires { InRange (figures self) }
        ensures { result ≡ need_of (figures self) }
    {
        self.behind(7, 6)
    }

    // The first words of the regions behind the compounds.
    pub fn values(self) -> usize
        requires { InRange (figures self) }
        ensures { result ≡ values_region (figures self) }
    {
        self.behind(0, 0)
    }

    pub fn waiters(self) -> usize
        requires { InRange (figures self) }
        ensures { result ≡ waiters_region (figures self) }
    {
        self.behind(1, 0)
    }

    pub fn sets(self) -> usize
        requires { InRange (figures self) }
        ensures { result ≡ sets_region (figures self) }
    {
        self.behind(2, 0)
    }

    pub fn marks(self) -> usize
        requires { InRange (figures self) }
        ensures { result ≡ marks_region (figures self) }
    {
        self.behind(3, 0)
    }

    pub fn readers(self) -> usize
        requires { InRange (figures self) }
        ensures { result ≡ readers_region (figures self) }
    {
        self.behind(4, 0)
    }

    pub fn ends(self) -> usize
        requires { InRange (figures self) }
        ensures { result ≡ ends_region (figures self) }
    {
        self.behind(6, 0)
    }

    pub fn queue(self) -> usize
        requires { InRange (figures self) }
        ensures { result ≡ queue_region (figures self) }
    {
        self.behind(7, 0)
    }

    pub fn waiting(self) -> usize
        requires { InRange (figures self) }
        ensures { result ≡ waiting_region (figures self) }
    {
        self.behind(7, 1)
    }

    pub fn failed(self) -> usize
        requires { InRange (figures self) }
        ensures { result ≡ failed_region (figures self) }
    {
        self.behind(7, 5)
    }
}
