// The call of document 01: one function that takes a text, figures and two buffers, and gives its answer.
// `call::call` requires nothing and promises answer, report buffer and scratch of the definition's `call`. It composes the loader, the run and the
// report, which it sees by their contracts alone.
// Read specs/Calling for the contract, proofs/Promise for what it gives: one answer, who is accepted, independent sections.
#![tactic(auto)]

pub mod call;
