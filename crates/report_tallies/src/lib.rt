// The goals of the three lists and how many of them are a query's, the first lines of the report and of a section, which show such counts, and what stands
// behind a goal. `Tallies::of` promises the counts of a query, `Tallies::header`, `run_line` and `origin` the bytes, `Tallies::header_length`, `run_length` and
// `origin_length` their lengths. Read specs/Groups for the lists, specs/Header for the lines, specs/Origins for what stands behind a goal.
#![tactic(auto)]

pub mod groups;
pub mod header;
pub mod origin;
