// A reduction: what the trial has given becomes the pairs' values, the body's goals and then the woken goals join the queue.
ghost use Rattle.std.specs.Prelude.{◌≡◌, List, ℕ, ◌+◌, ◌*◌, ◌/◌, ◌≤◌, ◌<◌, length};
ghost use Rattle.meaning.specs.Terms.{Named};
ghost use Rattle.term.specs.Cells.{Places};
ghost use Rattle.term.specs.Layout.{compounds_region};
ghost use Rattle.term.specs.Words.{packed};
ghost use Rattle.run_compare.specs.Gifts.{Entry};
ghost use Rattle.run_effects.specs.Build.{Item};
ghost use Rattle.run_queues.specs.Log.{Slot};
ghost use Rattle.run_effects.specs.Reducing.{HeadAssigned, Assigning, GoalAssigned, Adding, Added, Wakes, Waked, AddsWoken, WokenAdded, Inserts, Inserted};

use crate::build::{copy, copy_arguments};
use run_queues::goals::{Log, Ring};
use term::layout::{GIFTS, TRIAL, WOKEN};
use term::scratch::{set_at, word_at};
use term::word::{TAGS, index, linked, word};

// X := what the head's writers were given, the clause's pairs lying from a pair on.
pub fn assign_head(s: &mut [u64], values: usize, pair: usize, pairs: usize)
    requires { (pairs ≤ 16) × (compounds_region ≤ values) × (values + pair + pairs ≤ length s.old) }
    ensures { HeadAssigned s.old s.new values pair pairs }
{
    for x in 0..pairs {
        let w = word_at(s, TRIAL, x);
        set_at(s, values + pair, x, w);
    }
}

// Z := the head's term, for each of the goal's pairs that is given one.
pub fn assign_goal(s: &mut [u64], values: usize, pair: usize, to: usize, n: usize) -> usize
    requires { (x : Item) × (unit : Places) × (bound : ℕ) × (list : List Entry) × Assigning s.old x unit values bound pair to n list }
    ensures { (x : Item) (unit : Places) (bound : ℕ) (list : List Entry) → Assigning s.old x unit values bound pair to n list
        → GoalAssigned s.old s.new x unit values bound pair to list result }
{
    let mut free = to;
    for i in 0..n {
        let z = index(word_at(s, GIFTS, 2 * i));
        let h = word_at(s, GIFTS + 1, 2 * i);
        free = copy(s, pair, values + z, free, h);
    }
    free
}

// A place of the log joins the list of so many, in which places rise.
// Stays a walk from the end: the list lies in fixed memory, and a place that is found later mostly stands further back.
fn insert(s: &mut [u64], place: usize, woken: usize)
    requires { Inserts s.old place woken }
    ensures { Inserted s.old s.new place woken }
{
    let mut i = woken;
    while 0 < i {
        let before = word_at(s, WOKEN, i - 1);
        if index(before) < place {
            break;
        }
        set_at(s, WOKEN, i, before);
        i -= 1;
    }
    set_at(s, WOKEN, i, word(place));
}

// The goal that waits on one of the trial's pairs, for each: its place in the log is listed, in the order in which they began to wait. How many.
pub fn wake(s: &mut [u64], log: Log, n: usize) -> usize
    requires { (pairs : ℕ) × (slots : List Slot) × Wakes s.old log.places log.waiters log.sets pairs slots n }
    ensures { (pairs : ℕ) (slots : List Slot) → Wakes s.old log.places log.waiters log.sets pairs slots n
        → Waked s.old s.new log.places log.waiters log.sets pairs slots n result }
{
    let mut woken = 0;
    for i in 0..n {
        let z = index(word_at(s, GIFTS, 2 * i));
        if let Some(place) = linked(word_at(s, log.waiters, z)) {
            log.leave(s, place);
            insert(s, place, woken);
            woken += 1;
        }
    }
    woken
}

// The word of a goal, by its compound's place and its mark.
fn goal_of(place: usize, mark: u64) -> u64
    requires { (place ≤ 1152921504606846976) × (mark ≤ 4503599627370496) }
    ensures { result ≡ packed mark place }
{
    TAGS * word(place) + mark
}

// Goals of an item, whose words stand from a place on, are copied and join the queue in order. The place behind the copies.
pub fn add_goals(
    s: &mut [u64],
    from: usize,
    n: usize,
    pair: usize,
    to: usize,
    mark: u64,
    queue: Ring,
) -> usize
    requires { (x : Item) × (goals : List Named)
        × Adding s.old x from n pair to mark queue.start queue.size queue.front queue.active goals }
    ensures { (x : Item) (goals : List Named) → Adding s.old x from n pair to mark queue.start queue.size queue.front queue.active goals
        → Added s.old s.new x n pair to mark queue.start queue.size queue.front queue.active goals result }
{
    let mut free = to;
    for i in 0..n {
        let h = word_at(s, from, i);
        let behind = Ring {
            active: queue.active + i,
            ..queue
        };
        behind.push(s, goal_of(free, mark));
        free = copy_arguments(s, pair, free, index(h / TAGS));
    }
    free
}

// The woken goals join the queue, in the order in which they began to wait.
pub fn add_woken(s: &mut [u64], log: Log, n: usize, queue: Ring)
    requires { (waiters : ℕ) × (sets : ℕ) × (pairs : ℕ) × (slots : List Slot) × (zs : List ℕ)
        × AddsWoken s.old log.places waiters sets pairs slots zs n queue.start queue.size queue.front queue.active }
    ensures { (waiters sets pairs : ℕ) (slots : List Slot) (zs : List ℕ)
        → AddsWoken s.old log.places waiters sets pairs slots zs n queue.start queue.size queue.front queue.active
        → WokenAdded s.old s.new log.places waiters sets pairs slots zs n queue.start queue.size queue.front queue.active }
{
    for i in 0..n {
        let goal = log.take(s, index(word_at(s, WOKEN, i)));
        let behind = Ring {
            active: queue.active + i,
            ..queue
        };
        behind.push(s, goal);
    }
}
