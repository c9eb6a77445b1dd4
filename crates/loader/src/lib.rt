// The loader: from a job text to a checked job in the scratch, or a refusal.
// Its one function for hosts is `load::load`. It promises exactly the answer of the definitions' `reading`, every word of the needed part afterwards
// (`image` in crate `load_image`, over `prepared`), and for a job that it is ready to run (`Ready` in crate `term`).
// Read specs/Loading and specs/Refusals; the parts stand in the crates `load_tokens` to `load_items`, in the order of crates.txt.
#![tactic(auto)]

pub mod load;
pub mod prepare;
pub mod refusal;
