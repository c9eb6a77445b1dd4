// A try counted, and whether what a reduction charges fits the room.
ghost use Rattle.std.specs.Prelude.{◌≡◌, ◌+◌, ◌-◌, ◌≤◌, ◌<◌, length, get_or, set};
ghost use Rattle.meaning.specs.State.{Origin};
ghost use Rattle.meaning.specs.Run.{within};
ghost use Rattle.term.specs.Layout.{figures, items_region, query_tries_word};
ghost use Rattle.term.specs.Goals.{goal_mark};
ghost use Rattle.run_charges.specs.Counted.{Counted};

use term::goal::mark;
use term::layout::{QUERIES, QUERY_STRIDE, QUERY_TRIES, Room};
use term::scratch::word_at;
use term::state::Standing;
use term::word::index;

// "Its query's number of tries rises by one."
pub fn count_try(s: &mut [u64], query: usize)
    requires { (query < 8) × (items_region ≤ length s.old) × (get_or s.old (query_tries_word query) 0 ≤ 1000000) }
    ensures { s.new ≡ set s.old (query_tries_word query) (get_or s.old (query_tries_word query) 0 + 1) }
{
    let tries = word_at(s, QUERIES + QUERY_STRIDE * query, QUERY_TRIES);
    s[QUERIES + QUERY_STRIDE * query + QUERY_TRIES] = tries + 1;
}

// The mark of the goals that clause k makes in a step of the query: "the step that made it counted".
pub fn made(s: &[u64], query: usize, k: usize) -> u64
    requires { (query < 8) × (k < 128) × (items_region ≤ length s.now) × (get_or s.now (query_tries_word query) 0 < 1000000) }
    ensures { result ≡ goal_mark query (record { clause = k + 1; tries = get_or s.now (query_tries_word query) 0 + 1 }) }
{
    let tries = index(word_at(s, QUERIES + QUERY_STRIDE * query, QUERY_TRIES));
    mark(query, k + 1, tries + 1)
}

// "Pairs or compounds charged would pass their figure, or active, waiting and failed goals together would number more than the goal figure."
pub fn fits(room: Room, t: Standing, pairs: usize, compounds: usize, body: usize) -> bool
    requires { Counted t × (pairs ≤ 16) × (compounds ≤ 32) × (body ≤ 8) }
    ensures { result ≡ within (figures room) (t.pairs + pairs) (t.compounds + compounds) (t.active - 1 + t.waiting + t.failed + body) }
{
    if room.pairs < t.pairs + pairs {
        return false;
    }
    if room.compounds < t.compounds + compounds {
        return false;
    }
    t.active - 1 + t.waiting + t.failed + body <= room.goals
}
