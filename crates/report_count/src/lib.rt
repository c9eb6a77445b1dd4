// The length of a term written out, and the numbers of its unassigned pairs.
// `count_term` promises the length up to the ceiling, and that pairs met for the first time have the next numbers; of values that were counted to
// their end the length and the place are kept. Read specs/Counts.
#![tactic(auto)]

pub mod counting;
