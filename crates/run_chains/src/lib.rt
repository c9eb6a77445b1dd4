// Chains of values: a goal's term followed to its end.
// A goal's arguments are followed once for all its trials, and the ends to which they lead are kept for the next time that it is taken.
// Read specs/Follow for what each promises.
#![tactic(auto)]

pub mod arguments;
pub mod ends;
pub mod follow;
