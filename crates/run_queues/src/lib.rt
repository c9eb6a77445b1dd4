// The goals' lists in the scratch of crate `term`: the queue as a ring, the waiting goals as a log, the failed goals.
// Each function promises the list that stands there afterwards, and which words alone have changed.
// Read specs/Ring and specs/Log.
#![tactic(auto)]

pub mod goals;
