// The parts of a reduction: a clause's terms copied, values assigned, body goals added to the queue, waiting goals woken.
// Each promises what the scratch holds afterwards, and which words alone have changed.
// Read specs/Build for copying, specs/Reducing for the others; crate `run_reduce` puts them in order.
#![tactic(auto)]

pub mod build;
pub mod reduce;
