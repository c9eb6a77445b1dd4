// The goal at the front waits or fails.
ghost use Rattle.std.specs.Prelude.{◌≡◌, List, ℕ, length, Some};
ghost use Rattle.meaning.specs.Bytes.{Bytes};
ghost use Rattle.meaning.specs.Terms.{Job};
ghost use Rattle.meaning.specs.State.{Goal};
ghost use Rattle.term.specs.Layout.{figures, InRange};
ghost use Rattle.term.specs.States.{Atlas};
ghost use Rattle.run_queues.specs.Log.{Slot};
ghost use Rattle.run_between.specs.Running.{StepIs};
ghost use Rattle.run_between.specs.Taking.{LogHere, FreePlace, Taken, JoiningWaiting, JoiningFailed};

use run_chains::ends::keep_ends;
use run_charges::charges::count_try;
use run_queues::goals::{Log, behind, fail};
use term::goal::place_of;
use term::layout::Room;
use term::state::Standing;

// The log with a free place at its end: closed up if it is full. How many places are used.
fn free_place(s: &mut [u64], room: Room, log: usize) -> usize
    requires { InRange (figures room) × ((slots : List Slot) × LogHere s.old (figures room) slots × (log ≡ length slots)) }
    ensures { (slots : List Slot) → LogHere s.old (figures room) slots → log ≡ length slots
        → FreePlace s.old s.new (figures room) slots result }
{
    if log < 2 * room.goals {
        return log;
    }
    Log::of(room).close_up(s, log)
}

// The goal joins the end of the waiting goals with so many readers.
fn add_waiting(
    s: &mut [u64],
    room: Room,
    t: Standing,
    goal: u64,
    query: usize,
    readers: usize,
) -> Standing
    requires { (text : Bytes) × (names : List Bytes) × (j : Job) × (limit : ℕ) × (atlas : Atlas) × (slots : List Slot) × (g : Goal) × (others : List Goal) × (rs : List ℕ)
        × Taken s.old text names j (figures room) limit atlas slots g others t
        × JoiningWaiting s.old j (figures room) limit atlas g goal query readers rs }
    ensures { (text : Bytes) (names : List Bytes) (j : Job) (limit : ℕ) (atlas : Atlas) (slots : List Slot) (g : Goal) (others : List Goal) (rs : List ℕ)
        → Taken s.old text names j (figures room) limit atlas slots g others t
        → JoiningWaiting s.old j (figures room) limit atlas g goal query readers rs
        → StepIs s.old s.new text names j (figures room) limit atlas g others t (Some result) }
{
    let log = free_place(s, room, t.log);
    Log::of(room).wait(s, log, goal, room.readers(), readers);
    count_try(s, query);
    Standing {
        front: behind(room.goals, t.front),
        active: t.active - 1,
        log: log + 1,
        waiting: t.waiting + 1,
        steps: t.steps + 1,
        ..t
    }
}

// The goal waits on so many readers: the ends to which its arguments lead are kept, and it joins the end of the waiting goals.
pub fn join_waiting(
    s: &mut [u64],
    room: Room,
    t: Standing,
    goal: u64,
    query: usize,
    readers: usize,
) -> Standing
    requires { (text : Bytes) × (names : List Bytes) × (j : Job) × (limit : ℕ) × (atlas : Atlas) × (slots : List Slot) × (g : Goal) × (others : List Goal) × (rs : List ℕ)
        × Taken s.old text names j (figures room) limit atlas slots g others t
        × JoiningWaiting s.old j (figures room) limit atlas g goal query readers rs }
    ensures { (text : Bytes) (names : List Bytes) (j : Job) (limit : ℕ) (atlas : Atlas) (slots : List Slot) (g : Goal) (others : List Goal) (rs : List ℕ)
        → Taken s.old text names j (figures room) limit atlas slots g others t
        → JoiningWaiting s.old j (figures room) limit atlas g goal query readers rs
        → StepIs s.old s.new text names j (figures room) limit atlas g others t (Some result) }
{
    keep_ends(s, room.values(), room.pairs, place_of(goal));
    add_waiting(s, room, t, goal, query, readers)
}

// The goal joins the end of the failed goals.
pub fn join_failed(s: &mut [u64], room: Room, t: Standing, goal: u64, query: usize) -> Standing
    requires { (text : Bytes) × (names : List Bytes) × (j : Job) × (limit : ℕ) × (atlas : Atlas) × (slots : List Slot) × (g : Goal) × (others : List Goal)
        × Taken s.old text names j (figures room) limit atlas slots g others t
        × JoiningFailed j (figures room) limit atlas g goal query }
    ensures { (text : Bytes) (names : List Bytes) (j : Job) (limit : ℕ) (atlas : Atlas) (slots : List Slot) (g : Goal) (others : List Goal)
        → Taken s.old text names j (figures room) limit atlas slots g others t
        → JoiningFailed j (figures room) limit atlas g goal query
        → StepIs s.old s.new text names j (figures room) limit atlas g others t (Some result) }
{
    fail(s, room.failed(), t.failed, goal);
    count_try(s, query);
    Standing {
        front: behind(room.goals, t.front),
        active: t.active - 1,
        failed: t.failed + 1,
        steps: t.steps + 1,
        ..t
    }
}
