// The goals: the queue as a ring, the waiting goals as a log in the order in which they began to wait, the failed goals. A goal is one
// word: eight times its compound's place, and its query.
ghost use Rattle.std.specs.Prelude.{◌≡◌, ℕ, ◌+◌, ◌*◌, ◌≤◌, ◌<◌, length, get_or, set, List, [], ◌∷◌, ◌++◌};
ghost use Rattle.run_queues.specs.Ring.{RingOk, Pushed, Passed};
ghost use Rattle.term.specs.Words.{link_to};
ghost use Rattle.term.specs.Layout.{figures, InRange, waiters_region, sets_region, waiting_region};
ghost use Rattle.term.specs.States.{round, listed};
ghost use Rattle.run_queues.specs.Log.{Slot, gone, waits, joined, gathered, At, Joins, JoinsAll, Waits, LogNow, Turns, Turned, Shifts, LogOk, Settles, SettledAs, Closed, Failed, slot};

use term::layout::Room;
use term::scratch::word_at;
use term::word::{index, link, linked, word};

// A place of the ring, counted past its end.
fn spot(size: usize, at: usize) -> usize
    ensures { result ≡ round size at }
{
    if at < size { at } else { at - size }
}

// The queue: a ring of so many words from a place on, in which so many goals stand from the front on.
#[derive(Clone, Copy)]
pub struct Ring {
    pub start: usize,
    pub size: usize,
    pub front: usize,
    pub active: usize,
}

impl Ring {
    // The goal joins the end of the queue.
    pub fn push(self, s: &mut [u64], goal: u64)
        requires { RingOk s.old self.start self.size self.front × (self.active < self.size) }
        ensures { Pushed s.old s.new self.start self.size self.front self.active goal }
    {
        s[self.start + spot(self.size, self.front + self.active)] = goal;
    }
}

// The front of the queue when its goal is taken.
pub fn behind(size: usize, front: usize) -> usize
    requires { front < size }
    ensures { Passed size front result }
{
    if front + 1 == size { 0 } else { front + 1 }
}

// The waiting goals: where the log's places stand, and of each pair the waiter and the next of its set.
#[derive(Clone, Copy)]
pub struct Log {
    pub places: usize,
    pub waiters: usize,
    pub sets: usize,
}

impl Log {
    // The log where a room has it.
    pub fn of(room: Room) -> Log
        requires { InRange (figures room) }
        ensures places { result.places ≡ waiting_region (figures room) }
        ensures waiters { result.waiters ≡ waiters_region (figures room) }
        ensures sets { result.sets ≡ sets_region (figures room) }
    {
        Log {
            places: room.waiting(),
            waiters: room.waiters(),
            sets: room.sets(),
        }
    }

    // Two words of a place: the goal, and a link to the first pair of its set.
    fn seat(self, s: &mut [u64], place: usize, goal: u64, first: u64)
        requires { self.places + 2 * place + 1 < length s.old }
        ensures { s.new ≡ set (set s.old (self.places + 2 * place) goal) (self.places + 2 * place + 1) first }
    {
        s[self.places + 2 * place] = goal;
        s[self.places + 2 * place + 1] = first;
    }

    // A pair's waiter and its next pair, and the first pair of the goal at a place.
    fn point(self, s: &mut [u64], place: usize, p: usize, waiter: u64, next: u64, first: u64)
        requires { (self.waiters + p < length s.old) × (self.sets + p < length s.old) × (self.places + 2 * place + 1 < length s.old) }
        ensures { s.new ≡ set (set (set s.old (self.waiters + p) waiter) (self.sets + p) next) (self.places + 2 * place + 1) first }
    {
        s[self.waiters + p] = waiter;
        s[self.sets + p] = next;
        s[self.places + 2 * place + 1] = first;
    }

    // A pair joins the set of the goal at a place, unless it is in it.
    fn join(self, s: &mut [u64], place: usize, p: usize)
        requires { (pairs : ℕ) × (slots : List Slot) × (goal : ℕ) × (ps : List ℕ)
            × Joins s.old self.places self.waiters self.sets pairs slots place goal ps p }
        ensures { (pairs : ℕ) (slots : List Slot) (goal : ℕ) (ps : List ℕ)
            → Joins s.old self.places self.waiters self.sets pairs slots place goal ps p
            → LogNow s.old s.new self.places self.waiters self.sets pairs (length slots) (set slots place (waits goal (joined p ps))) }
    {
        if s[self.waiters + p] == 0 {
            let first = s[self.places + 2 * place + 1];
            self.point(s, place, p, link(Some(place)), first, link(Some(p)));
        }
    }

    // The pairs of so many readers, which stand in a list, join it.
    fn join_all(self, s: &mut [u64], place: usize, readers: usize, n: usize)
        requires { (pairs : ℕ) × (slots : List Slot) × (goal : ℕ) × (ps : List ℕ)
            × JoinsAll s.old self.places self.waiters self.sets pairs slots place goal ps readers n }
        ensures { (pairs : ℕ) (slots : List Slot) (goal : ℕ) (ps : List ℕ)
            → JoinsAll s.old self.places self.waiters self.sets pairs slots place goal ps readers n
            → LogNow s.old s.new self.places self.waiters self.sets pairs (length slots)
            (set slots place (waits goal (gathered ps (listed s.old readers n)))) }
    {
        for i in 0..n {
            self.join(s, place, index(word_at(s, readers, i)));
        }
    }

    // The goal joins the end of the waiting goals with the readers of so many pairs, which stand in a list.
    pub fn wait(self, s: &mut [u64], place: usize, goal: u64, readers: usize, n: usize)
        requires { (pairs : ℕ) × (slots : List Slot) × Waits s.old self.places self.waiters self.sets pairs slots place goal readers n }
        ensures { (pairs : ℕ) (slots : List Slot) → Waits s.old self.places self.waiters self.sets pairs slots place goal readers n
            → LogNow s.old s.new self.places self.waiters self.sets pairs (place + 1)
            (slots ++ (waits goal (gathered [] (listed s.old readers n)) ∷ [])) }
    {
        self.seat(s, place, goal, 0);
        self.join_all(s, place, readers, n);
    }

    // The first pair leaves the set of the goal at a place; the next one.
    fn part(self, s: &mut [u64], place: usize, p: usize) -> Option<usize>
        requires { (self.waiters + p < length s.old) × (self.sets + p < length s.old) × (self.places + 2 * place + 1 < length s.old) }
        ensures next { link_to result ≡ get_or s.old (self.sets + p) 0 }
        ensures words { s.new
            ≡ set (set (set s.old (self.waiters + p) 0) (self.sets + p) 0) (self.places + 2 * place + 1) (get_or s.old (self.sets + p) 0) }
    {
        let next = s[self.sets + p];
        self.point(s, place, p, 0, 0, next);
        linked(next)
    }

    // The goal at a place waits on none of its readers any more.
    pub fn leave(self, s: &mut [u64], place: usize)
        requires { (pairs : ℕ) × (slots : List Slot) × (goal : ℕ) × (ps : List ℕ)
            × At s.old self.places self.waiters self.sets pairs slots place goal ps }
        ensures { (pairs : ℕ) (slots : List Slot) (goal : ℕ) (ps : List ℕ)
            → At s.old self.places self.waiters self.sets pairs slots place goal ps
            → LogNow s.old s.new self.places self.waiters self.sets pairs (length slots) (set slots place (waits goal [])) }
    {
        let mut first = linked(s[self.places + 2 * place + 1]);
        while let Some(p) = first {
            first = self.part(s, place, p);
        }
    }

    // The goal at a place that waits on no pair is taken, and the place is emptied.
    pub fn take(self, s: &mut [u64], place: usize) -> u64
        requires { self.places + 2 * place + 1 < length s.old }
        ensures goal { result ≡ get_or s.old (self.places + 2 * place) 0 }
        ensures words { s.new ≡ set (set s.old (self.places + 2 * place) 0) (self.places + 2 * place + 1) 0 }
        ensures log { (waiters sets pairs : ℕ) (slots : List Slot) (goal : ℕ)
            → At s.old self.places waiters sets pairs slots place goal []
            → (result ≡ goal) × LogNow s.old s.new self.places waiters sets pairs (length slots) (set slots place gone) }
    {
        let goal = s[self.places + 2 * place];
        self.seat(s, place, 0, 0);
        goal
    }

    // A pair is given a new waiter; the next pair of the set.
    fn turn(self, s: &mut [u64], p: usize, waiter: u64) -> Option<usize>
        requires { (self.waiters + p < length s.old) × (self.sets + p < length s.old) }
        ensures next { link_to result ≡ get_or s.old (self.sets + p) 0 }
        ensures words { s.new ≡ set s.old (self.waiters + p) waiter }
    {
        let next = s[self.sets + p];
        s[self.waiters + p] = waiter;
        linked(next)
    }

    // The pairs of a set know the new place of their goal.
    fn turn_all(self, s: &mut [u64], start: Option<usize>, waiter: u64)
        requires { (pairs : ℕ) × (from : ℕ) × (ps : List ℕ) × Turns s.old self.waiters self.sets pairs from waiter (link_to start) ps }
        ensures { (pairs : ℕ) (from : ℕ) (ps : List ℕ) → Turns s.old self.waiters self.sets pairs from waiter (link_to start) ps
            → Turned s.old s.new self.waiters waiter ps }
    {
        let mut first = start;
        while let Some(p) = first {
            first = self.turn(s, p, waiter);
        }
    }

    // The goal at a place moves with its set to an emptied place before it.
    fn shift(self, s: &mut [u64], from: usize, to: usize)
        requires { (pairs : ℕ) × (slots : List Slot) × (goal : ℕ) × (ps : List ℕ)
            × Shifts s.old self.places self.waiters self.sets pairs slots from to goal ps }
        ensures { (pairs : ℕ) (slots : List Slot) (goal : ℕ) (ps : List ℕ)
            → Shifts s.old self.places self.waiters self.sets pairs slots from to goal ps
            → LogNow s.old s.new self.places self.waiters self.sets pairs (length slots) (set (set slots to (waits goal ps)) from gone) }
    {
        let goal = s[self.places + 2 * from];
        let first = s[self.places + 2 * from + 1];
        self.turn_all(s, linked(first), link(Some(to)));
        self.seat(s, to, goal, first);
        self.seat(s, from, 0, 0);
    }

    // The goal at a place, if there is one, takes the first emptied place; the place behind it.
    fn settle(self, s: &mut [u64], place: usize, to: usize) -> usize
        requires { (pairs : ℕ) × (slots : List Slot) × Settles s.old self.places self.waiters self.sets pairs slots place to }
        ensures { (pairs : ℕ) (slots : List Slot) → Settles s.old self.places self.waiters self.sets pairs slots place to
            → SettledAs s.old s.new self.places self.waiters self.sets pairs slots place to result (slot slots place) }
    {
        if s[self.places + 2 * place] == 0 {
            return to;
        }
        if to == place {
            return to + 1;
        }
        self.shift(s, place, to);
        to + 1
    }

    // The log closed up: its emptied places are taken by the goals behind them, which keep their order. How many there are.
    pub fn close_up(self, s: &mut [u64], used: usize) -> usize
        requires { (pairs : ℕ) × (slots : List Slot) × LogOk s.old self.places self.waiters self.sets pairs slots × (used ≡ length slots) }
        ensures { (pairs : ℕ) (slots : List Slot) → LogOk s.old self.places self.waiters self.sets pairs slots → used ≡ length slots
            → Closed s.old s.new self.places self.waiters self.sets pairs used slots result }
    {
        let mut to = 0;
        for i in 0..used {
            to = self.settle(s, i, to);
        }
        to
    }
}

// The goal joins the end of the failed goals.
pub fn fail(s: &mut [u64], failed: usize, n: usize, goal: u64)
    requires { failed + n < length s.old }
    ensures { Failed s.old s.new failed n goal }
{
    s[failed + n] = goal;
}
