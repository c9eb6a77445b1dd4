// One step: the goal at the front is reduced, waits or fails.
ghost use Rattle.std.specs.Prelude.{◌≡◌, List, ◌∷◌, ℕ, ◌+◌, ◌*◌, ◌<◌};
ghost use Rattle.meaning.specs.Bytes.{Bytes};
ghost use Rattle.meaning.specs.Terms.{Job};
ghost use Rattle.meaning.specs.State.{Goal};
ghost use Rattle.meaning.specs.Run.{run};
ghost use Rattle.term.specs.Layout.{figures};
ghost use Rattle.term.specs.States.{Atlas};
ghost use Rattle.run_queues.specs.Log.{Slot};
ghost use Rattle.run_between.specs.Running.{Running, StepIs};

use run_asked::asking::Hindered;
use run_reduce::reduce::reduce;
use run_trial::choice::choice;
use run_unreduced::join::{join_failed, join_waiting};
use term::goal::place_of;
use term::layout::Room;
use term::scratch::word_at;
use term::state::Standing;
use term::word::{TAGS, index, word};

// "A step takes the goal at the front": the state after it, unless it is a reduction that does not fit. Every step has 32,768 stamps of its own: 256 a clause.
pub fn step(s: &mut [u64], room: Room, t: Standing) -> Option<Standing>
    requires { (text : Bytes) × (names : List Bytes) × (j : Job) × (limit : ℕ) × (atlas : Atlas) × (slots : List Slot) × (g : Goal) × (others : List Goal)
        × Running s.old text names j (figures room) limit atlas slots t (t.steps * 32768 + 2)
        × (t.steps < 1000000)
        × ((run j limit (figures room)).state.goals.queue ≡ g ∷ others) }
    ensures { (text : Bytes) (names : List Bytes) (j : Job) (limit : ℕ) (atlas : Atlas) (slots : List Slot) (g : Goal) (others : List Goal)
        → Running s.old text names j (figures room) limit atlas slots t (t.steps * 32768 + 2)
        → t.steps < 1000000
        → (run j limit (figures room)).state.goals.queue ≡ g ∷ others
        → StepIs s.old s.new text names j (figures room) limit atlas g others t result }
{
    let goal = word_at(s, room.queue(), t.front);
    let query = index(goal % TAGS);
    match choice(
        s,
        room.values(),
        room.marks(),
        room.pairs,
        place_of(goal),
        word(t.steps) * 32768 + 2,
    ) {
        Ok((k, n)) => reduce(s, room, t, query, k, n),
        Err(Hindered::Waits(readers)) => Some(join_waiting(s, room, t, goal, query, readers)),
        Err(Hindered::Fails) => Some(join_failed(s, room, t, goal, query)),
    }
}
