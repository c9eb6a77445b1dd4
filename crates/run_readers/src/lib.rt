// The readers that the clauses tried in a step wait on: a set of pairs that may be as large as the room, in which each stands once.
// `asks` says whether a trial waits, `meet_all` adds the readers that it waits on to the set.
// Read specs/Readers for what stands in the scratch, and what each promises.
#![tactic(auto)]

pub mod readers;
