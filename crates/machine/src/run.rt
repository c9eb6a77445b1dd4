// The run: step after step, until it ends.
ghost use Rattle.std.specs.Prelude.{◌≡◌, List, ◌≤◌, length};
ghost use Rattle.meaning.specs.Bytes.{Bytes};
ghost use Rattle.meaning.specs.Terms.{Job};
ghost use Rattle.term.specs.Layout.{figures};
ghost use Rattle.term.specs.States.{Ready, Atlas};
ghost use Rattle.run_queues.specs.Log.{Slot};
ghost use Rattle.run_between.specs.Running.{Running, RunOnly};
ghost use Rattle.machine.specs.Ending.{GoneOn, RanIs};

use crate::step::step;
use run_enter::enter::{enter_all, fit};
use run_index::build::build;
use term::layout::Room;
use term::state::{Standing, Verdict};

// "Before each step, in this order: queue empty; steps equal the budget; the step would be a reduction that doesn't fit."
fn go_on(s: &mut [u64], room: Room, budget: usize, first: Standing) -> (Verdict, Standing)
    requires { (text : Bytes) × (names : List Bytes) × (j : Job) × (atlas : Atlas) × (slots : List Slot)
        × Running s.old text names j (figures room) 0 atlas slots first 2 × (first.steps ≡ 0) × (budget ≤ 1000000) }
    ensures { (text : Bytes) (names : List Bytes) (j : Job) (atlas : Atlas) (slots : List Slot)
        → Running s.old text names j (figures room) 0 atlas slots first 2 → first.steps ≡ 0 → budget ≤ 1000000
        → RunOnly (figures room) s.old s.new × GoneOn s.new names j (figures room) budget result }
{
    let mut t = first;
    while t.active != 0 {
        if t.steps == budget {
            return (Verdict::Budget, t);
        }
        match step(s, room, t) {
            Some(next) => t = next,
            None => return (Verdict::Room, t),
        }
    }
    (Verdict::Rest, t)
}

// The loaded job with so many clauses and queries is run under a budget: how the run ended and the state in which it did, unless the queries alone pass a
// room figure.
pub fn run(
    s: &mut [u64],
    room: Room,
    budget: usize,
    clauses: usize,
    queries: usize,
) -> Option<(Verdict, Standing)>
    requires { (text : Bytes) × (names : List Bytes) × (j : Job) × Ready s.old text names (figures room) j
        × (budget ≤ 1000000) × (clauses ≡ length j.clauses) × (queries ≡ length j.queries) }
    ensures { (text : Bytes) (names : List Bytes) (j : Job) → Ready s.old text names (figures room) j
        → budget ≤ 1000000 → clauses ≡ length j.clauses → queries ≡ length j.queries
        → RanIs s.old s.new text names j (figures room) budget result }
{
    if !fit(s, room, queries) {
        return None;
    }
    build(s, clauses);
    let t = enter_all(s, room, queries);
    Some(go_on(s, room, budget, t))
}
