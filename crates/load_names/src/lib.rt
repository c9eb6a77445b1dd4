// The tables that the loader keeps while it reads: `names` and `variables` number spellings, `rules` judges the occurrence rules by how often
// each half of a variable has occurred; `source` is what the loader reads.
// Each promises exactly what stands in its table afterwards. They are the loader's own arrays, no part of the scratch.
// Read specs/Tables for the tables, specs/Answers and specs/Rules for what is told of them.
#![tactic(auto)]

pub mod names;
pub mod rules;
pub mod source;
pub mod variables;
