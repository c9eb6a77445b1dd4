// What a step counts: a try of the goal's query, and whether what a reduction charges fits the room.
// `count_try` promises one word changed, `fits` the definition's test.
// Read specs/Counted for what is asked of the numbers.
#![tactic(auto)]

pub mod charges;
