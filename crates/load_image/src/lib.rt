// The scratch when a text is loaded, as a function of the text, and its laws: it holds the definitions' job and the text's spellings.
// `keep` stores where names and variables stand, and links the clauses of each procedure.
// Read specs/Image for the function, proofs/Loaded and proofs/TextHolds for the laws.
#![tactic(auto)]

pub mod keep;
