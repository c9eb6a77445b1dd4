// What a guard of a clause is asked in, for those that ask: the unit as it was before the step, what the head gave the clause's variables, the guard's
// arguments as the clause has them, and the set of the readers that the step has met; and how a guard says that it does not succeed.
// Read specs/Asking. `run_ground` looks for unassigned variables, `run_equal` compares, `run_guards` asks a clause's guards in order.
#![tactic(auto)]

pub mod asking;
