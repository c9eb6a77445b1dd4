// Items: clauses and queries, each read into its places of the scratch, with guards and occurrence rules judged behind its full stop.
// `next_item` promises the answer of the definitions' `item`, and every word stored.
// Read specs/Outcomes for what each answer says, specs/Rules for a clause read up to its full stop, specs/Judging for how it is judged there.
#![tactic(auto)]

pub mod counts;
pub mod items;
pub mod refused;
pub mod rule;
