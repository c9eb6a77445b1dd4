// The elements behind a clause's `:-`, read from left to right into the item's compounds: at the bar they are its guards, at the full stop its goals.
// `element` and `elements` promise what the definitions' `element_behind` and `body` answer, and every word that they store.
// Read specs/Elements and specs/Listed for what each promises; crate `load_terms` reads their terms.
#![tactic(auto)]

pub mod answer;
pub mod elements;
