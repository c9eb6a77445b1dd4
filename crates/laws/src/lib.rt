// The laws of the definitions of crate `meaning`, which the proofs of the code use. There is no code here.
// They say what no single case can: no circle, single occurrence, nothing dropped, a query's own run.
// Read proofs/Promise first: the laws joined, for every accepted text and every two calls that ran.
#![tactic(auto)]
