// The table of document 01 on two words, by what is seen of each: one place of a head against one of a goal, with what it gives, or the
// reader that it waits on, noted in the trial's region of the scratch; whether two compounds differ in functor or number of arguments.
// Read specs/Rows for what each row promises.
#![tactic(auto)]

pub mod table;
