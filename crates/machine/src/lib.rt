// The machine: the queries entered, and the run, step by step, over the scratch of crate `term`.
// `run::run` promises number 7 exactly where the definition gives it, and otherwise the verdict and the state of the definition's `run`. A step takes
// the choice of a clause from crate `run_trial`, and goes on by `run_reduce` or `run_unreduced`.
// Read specs/Ending for what a run promises, `step` for the step on one page; the parts stand in the crates `run_table` to `run_enter`.
#![tactic(auto)]

pub mod run;
pub mod step;
