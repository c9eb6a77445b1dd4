// How terms and goals begin: `begin` reads the first token or two of a term, `goal` a goal's name and its parenthesis; `cursor` says where a
// reading stands.
// Each promises what the definitions' reader of terms does on these tokens, and what is left for the rest to read.
// Read specs/Begun and specs/Reading.
#![tactic(auto)]

pub mod begin;
pub mod cursor;
pub mod goal;
