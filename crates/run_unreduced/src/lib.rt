// The goal at the front that no clause reduces: it joins the waiting goals, with the ends to which its arguments lead kept, or the failed goals.
// `join_waiting` and `join_failed` promise a step of the run, by `StepIs` in specs/Running of crate `run_between`.
// Read proofs/WaitingStep and proofs/Failing.
#![tactic(auto)]

pub mod join;
