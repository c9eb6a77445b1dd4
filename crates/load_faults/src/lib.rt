// Which occurrence rule an item breaks, and at which byte: a second walk over its tokens, for an item of which the table says that a rule is broken.
// `faults::first_fault` promises the laws' `first_fault`, which is the definitions' least fault; so accepted texts cost nothing.
// Read specs/Finding for what is known of the item, proofs/Walked for what each token does.
#![tactic(auto)]

pub mod faults;
