// Heads and goals of an item, read from left to right into the item's compounds and records.
// `goal` and `goals` promise what the definitions' readers of a goal and of goals answer, and every word that they store.
// Read specs/Endings for what each promises; crate `load_terms` reads their arguments.
#![tactic(auto)]

pub mod goals;
