// A clause's guards, judged: which row of the table each element before the bar is, which readers they license, and whether one of them has a variable
// that it must not have. `guards::resolve`, `licences` and `foreign` promise the definitions' `as_guards`, `licensed` and `of_the_head`.
// Read specs/Judged for what is known of the elements and of the words that are set for them.
#![tactic(auto)]

pub mod guards;
