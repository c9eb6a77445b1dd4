// Whether the two arguments of a guard `==`, both ground, are equal when written out.
// Written out they may be as large as a tower of doublings, so nothing walks them: a pair that is compared is linked to what it is compared with, and
// what is met again is seen to be the same by its links. Links are made before the values are compared: if these differ, so do the two arguments.
// Read specs/Equal for what stands in the scratch, and what each function promises.
#![tactic(auto)]

pub mod equal;
