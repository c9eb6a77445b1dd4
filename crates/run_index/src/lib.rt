// An index of the clauses: for a goal, the clauses of its procedure less those that fail at one place, which tells them apart.
// It is built when the run begins, in words of the clauses' records that nothing else uses, and stays as it is.
// `build::build` promises the index of the job that the scratch holds, and which words alone have changed; `leads::to_try` the clauses to try for a goal.
// Read specs/Index for the words, specs/Left for what is left to try, specs/Building for what each step of building changes.
#![tactic(auto)]

pub mod build;
pub mod index;
pub mod leads;
