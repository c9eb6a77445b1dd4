// The word of a goal: its query below TAGS, then its compound's place, then its origin: the clause that made it, and its query's number of tries then.
ghost use Rattle.std.specs.Prelude.{◌≡◌, ◌≤◌, ◌<◌};
ghost use Rattle.meaning.specs.State.{Origin};
ghost use Rattle.term.specs.Goals.{goal_mark, place_in, clause_in, tries_in};

use crate::word::{TAGS, index, word};

// More than the place of any compound, and than the number of any clause.
const PLACES: u64 = 1048576;

const NUMBERS: u64 = 256;

// The mark of a goal: its word, but for its compound's place.
pub fn mark(query: usize, clause: usize, tries: usize) -> u64
    requires { (query < 8) × (clause ≤ 128) × (tries ≤ 1000000) }
    ensures { result ≡ goal_mark query (record { clause = clause; tries = tries }) }
{
    word(query) + TAGS * PLACES * (word(clause) + NUMBERS * word(tries))
}

// The place of a goal's compound.
pub fn place_of(goal: u64) -> usize
    ensures { result ≡ place_in goal }
{
    index(goal / TAGS % PLACES)
}

// The clause that made a goal, by its number; 0 for the query.
pub fn clause_of(goal: u64) -> usize
    ensures { result ≡ clause_in goal }
{
    index(goal / TAGS / PLACES % NUMBERS)
}

// Its query's number of tries when it was made.
pub fn tries_of(goal: u64) -> usize
    ensures { result ≡ tries_in goal }
{
    index(goal / TAGS / PLACES / NUMBERS)
}
