// Whether a guard's arguments, written out, hold unassigned variables, for the guards `ground` and `==`: `seek` looks through them from the left and depth
// first, and lets the unassigned readers that it meets join the step's set of readers.
// It promises the definition's result over the arguments written out, that only marks and the set have changed, and that what it marks as ground is so
// (specs/Seeking). Read specs/Looking for the walk. Each pair is entered once a call, and one that is marked as ground never again.
#![tactic(auto)]

pub mod seek;
