// A head compared with a goal whose arguments were followed.
// `head` promises the outcome of document 01's table, with what is given recorded in the trial's region of the scratch.
// Read specs/Compare and specs/Gifts; crates `run_table` and `run_chains` have the table of two words and following.
#![tactic(auto)]

pub mod compare;
pub mod heads;
