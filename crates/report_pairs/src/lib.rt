// What the report knows of a unit's pairs: the end of a pair's chain, the length of its value, where it begins, and its number; the walk over a compound's
// arguments and a list's elements; lengths up to the ceiling.
// Each function promises what is known of each pair afterwards, and that nothing else has changed.
// Read specs/Facts and specs/Walk.
#![tactic(auto)]

pub mod cells;
pub mod ends;
pub mod length;
