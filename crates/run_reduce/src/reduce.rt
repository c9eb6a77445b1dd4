// The goal at the front is reduced.
ghost use Rattle.std.specs.Prelude.{List, ℕ};
ghost use Rattle.meaning.specs.Bytes.{Bytes};
ghost use Rattle.meaning.specs.Terms.{Clause, Job};
ghost use Rattle.meaning.specs.State.{Goal};
ghost use Rattle.meaning.specs.Compare.{Assignment};
ghost use Rattle.term.specs.Layout.{figures};
ghost use Rattle.term.specs.States.{Atlas};
ghost use Rattle.run_queues.specs.Log.{Slot};
ghost use Rattle.run_between.specs.Running.{StepIs};
ghost use Rattle.run_between.specs.Taking.{Taken, Reducing};

use run_charges::charges::{count_try, fits, made};
use run_effects::reduce::{add_goals, add_woken, assign_goal, assign_head, wake};
use run_queues::goals::{Log, Ring, behind};
use term::layout::{
    CLAUSE_BODY, CLAUSE_COMPOUNDS, CLAUSE_GOALS, CLAUSE_PAIRS, CLAUSE_STRIDE, CLAUSES, Room,
};
use term::scratch::word_at;
use term::state::Standing;
use term::word::index;

// The goal is reduced by clause k, with n of its pairs given a term: the state after it, unless the reduction does not fit.
pub fn reduce(
    s: &mut [u64],
    room: Room,
    t: Standing,
    query: usize,
    k: usize,
    n: usize,
) -> Option<Standing>
    requires { (text : Bytes) × (names : List Bytes) × (j : Job) × (limit : ℕ) × (atlas : Atlas) × (slots : List Slot) × (g : Goal) × (others : List Goal) × (c : Clause) × (given : List Assignment)
        × Taken s.old text names j (figures room) limit atlas slots g others t
        × Reducing s.old names j (figures room) limit atlas g query k n c given }
    ensures { (text : Bytes) (names : List Bytes) (j : Job) (limit : ℕ) (atlas : Atlas) (slots : List Slot) (g : Goal) (others : List Goal) (c : Clause) (given : List Assignment)
        → Taken s.old text names j (figures room) limit atlas slots g others t
        → Reducing s.old names j (figures room) limit atlas g query k n c given
        → StepIs s.old s.new text names j (figures room) limit atlas g others t result }
{
    let mark = made(s, query, k);
    let pairs = index(word_at(s, CLAUSES + CLAUSE_STRIDE * k, CLAUSE_PAIRS));
    let compounds = index(word_at(s, CLAUSES + CLAUSE_STRIDE * k, CLAUSE_COMPOUNDS));
    let body = index(word_at(s, CLAUSES + CLAUSE_STRIDE * k, CLAUSE_GOALS));
    if !fits(room, t, pairs, compounds, body) {
        return None;
    }
    let log = Log::of(room);
    let queue = Ring {
        start: room.queue(),
        size: room.goals,
        front: behind(room.goals, t.front),
        active: t.active - 1,
    };
    assign_head(s, room.values(), t.pairs, pairs);
    let free = assign_goal(s, room.values(), t.pairs, t.cells, n);
    let woken = wake(s, log, n);
    let cells = add_goals(
        s,
        CLAUSES + CLAUSE_STRIDE * k + CLAUSE_BODY,
        body,
        t.pairs,
        free,
        mark,
        queue,
    );
    let longer = Ring {
        active: queue.active + body,
        ..queue
    };
    add_woken(s, log, woken, longer);
    count_try(s, query);
    Some(Standing {
        pairs: t.pairs + pairs,
        compounds: t.compounds + compounds,
        cells,
        front: longer.front,
        active: longer.active + woken,
        waiting: t.waiting - woken,
        steps: t.steps + 1,
        ..t
    })
}
