// The trial of a clause, and the choice of a clause among those of a procedure.
// `choice` promises the definition's `choice`; afterwards only the trial's region and the marks have changed.
// Read specs/Choosing for what each promises.
#![tactic(auto)]

pub mod choice;
