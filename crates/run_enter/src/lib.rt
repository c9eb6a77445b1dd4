// The queries entered: whether they fit the room, and their goals in the queue.
// `fit` promises the definition's test, `enter_all` that the scratch holds the definition's `start`.
// Read specs/Entering.
#![tactic(auto)]

pub mod enter;
