// The guards of a clause, asked in order behind the circle test, "up to the first that doesn't succeed".
// `guards::guards` promises the definition's `in_order`; only marks and the set of the step's readers have changed afterwards.
// Read specs/Guarding for what it asks and tells; `run_ground` and `run_equal` look into values.
#![tactic(auto)]

pub mod guards;
