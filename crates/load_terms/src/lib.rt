// Terms of an item, read from left to right into the item's compounds: arguments and list elements in loops, brackets by recursion.
// `term` promises the answer of the definitions' `term`, and every word that it stores (`ReadIs` in crate `load_openings`).
// Read proofs/Arguments and proofs/Linked for the loops' invariants.
#![tactic(auto)]

pub mod terms;
