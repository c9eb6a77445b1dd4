// The queries entered.
ghost use Rattle.std.specs.Prelude.{◌≡◌, true, List, [], ◌∷◌, ◌++◌, ℕ, ◌+◌, ◌≤◌, ◌<◌, length, get_or};
ghost use Rattle.meaning.specs.Bytes.{Bytes};
ghost use Rattle.meaning.specs.Terms.{Job, Query};
ghost use Rattle.term.specs.Layout.{figures, items_region, query_record, item_compounds, query_stride};
ghost use Rattle.term.specs.States.{Ready, Atlas};
ghost use Rattle.meaning.specs.Run.{queries_fit};
ghost use Rattle.term.specs.Jobs.{HoldsJob};
ghost use Rattle.run_enter.specs.Entering.{record_sum, EnterOnly, Entered};

use run_effects::reduce::add_goals;
use run_queues::goals::Ring;
use term::layout::{
    COMPOUNDS, QUERIES, QUERY_BODY, QUERY_COMPOUNDS, QUERY_FIRST_PAIR, QUERY_GOALS, QUERY_PAIRS,
    QUERY_STRIDE, Room,
};
use term::scratch::{set_at, word_at};
use term::state::Standing;
use term::word::{index, word};

// The queries' words at a place of their records, added up: 0 their goals, 1 their pairs, 2 their compounds.
fn sum(s: &[u64], queries: usize, at: usize) -> usize
    requires { (queries ≤ 8) × (at < query_stride) × (items_region ≤ length s.now) × ((q : ℕ) → q < queries → get_or s.now (query_record q + at) 0 ≤ item_compounds) }
    ensures { result ≡ record_sum s.now at queries }
{
    let mut all = 0;
    for q in 0..queries {
        all += index(word_at(s, QUERIES + QUERY_STRIDE * q, at));
    }
    all
}

// "The queries alone pass a room figure."
pub fn fit(s: &[u64], room: Room, queries: usize) -> bool
    requires { (names : List Bytes) × (j : Job) × HoldsJob s.now names j × (queries ≡ length j.queries) }
    ensures { (names : List Bytes) (j : Job) → HoldsJob s.now names j → queries ≡ length j.queries
        → result ≡ queries_fit (figures room) j.queries }
{
    if room.pairs < sum(s, queries, 1) {
        return false;
    }
    if room.compounds < sum(s, queries, 2) {
        return false;
    }
    sum(s, queries, 0) <= room.goals
}

// A query's goals join the queue; its pairs and compounds come next.
fn enter(s: &mut [u64], room: Room, q: usize, t: Standing) -> Standing
    requires { (text : Bytes) × (names : List Bytes) × (j : Job) × (done : List Query) × (x : Query) × (rest : List Query) × (atlas : Atlas)
        × Entered s.old text names j (figures room) done atlas t × (j.queries ≡ done ++ x ∷ rest) × (q ≡ length done) }
    ensures { (text : Bytes) (names : List Bytes) (j : Job) (done : List Query) (x : Query) (rest : List Query) (atlas : Atlas)
        → Entered s.old text names j (figures room) done atlas t → j.queries ≡ done ++ x ∷ rest → q ≡ length done
        → EnterOnly (figures room) s.old s.new
        × ((atlas' : Atlas) × Entered s.new text names j (figures room) (done ++ x ∷ []) atlas' result) }
{
    let goals = index(word_at(s, QUERIES + QUERY_STRIDE * q, QUERY_GOALS));
    let pairs = index(word_at(s, QUERIES + QUERY_STRIDE * q, QUERY_PAIRS));
    let compounds = index(word_at(s, QUERIES + QUERY_STRIDE * q, QUERY_COMPOUNDS));
    let queue = Ring {
        start: room.queue(),
        size: room.goals,
        front: 0,
        active: t.active,
    };
    let cells = add_goals(
        s,
        QUERIES + QUERY_STRIDE * q + QUERY_BODY,
        goals,
        t.pairs,
        t.cells,
        word(q),
        queue,
    );
    set_at(
        s,
        QUERIES + QUERY_STRIDE * q,
        QUERY_FIRST_PAIR,
        word(t.pairs),
    );
    Standing {
        pairs: t.pairs + pairs,
        compounds: t.compounds + compounds,
        cells,
        active: t.active + goals,
        ..t
    }
}

// "The goals of all queries, in text order, form the queue."
pub fn enter_all(s: &mut [u64], room: Room, queries: usize) -> Standing
    requires { (text : Bytes) × (names : List Bytes) × (j : Job) × Ready s.old text names (figures room) j
        × (queries_fit (figures room) j.queries ≡ true) × (queries ≡ length j.queries) }
    ensures { (text : Bytes) (names : List Bytes) (j : Job) → Ready s.old text names (figures room) j
        → queries_fit (figures room) j.queries ≡ true → queries ≡ length j.queries
        → EnterOnly (figures room) s.old s.new
        × ((atlas : Atlas) × Entered s.new text names j (figures room) j.queries atlas result) }
{
    let mut t = Standing {
        pairs: 0,
        compounds: 0,
        cells: COMPOUNDS,
        front: 0,
        active: 0,
        log: 0,
        waiting: 0,
        failed: 0,
        steps: 0,
    };
    for q in 0..queries {
        t = enter(s, room, q, t);
    }
    t
}
