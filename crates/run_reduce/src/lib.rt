// The goal at the front is reduced: whether the reduction fits, and the parts of crate `run_effects` in order.
// `reduce` promises a step of the run, by `StepIs` in specs/Running of crate `run_between`.
// Read proofs/Reduction for what each part asks.
#![tactic(auto)]

pub mod reduce;
