// The tokens of a text: `token` reads the one in front of a part of the text, `next` says whether it can begin a term and which sign it is,
// `lines` counts lines.
// Each promises what the definitions' `tokens` and `line` have there.
// Read specs/Fronts for what it is to stand in front of a token.
#![tactic(auto)]

pub mod lines;
pub mod next;
pub mod token;
