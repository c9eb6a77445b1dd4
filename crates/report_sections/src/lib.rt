// A query's section: its header, its values and its active, waiting and failed goals.
// `count_section` promises its length up to the ceiling and the numbers of its unassigned pairs, `write_section` its bytes in a buffer that has the
// room for them.
// Read specs/Sections for what stands in the scratch, specs/Whole for what a section is; the three lists of goals stand in crate `report_tallies`.
#![tactic(auto)]

pub mod sections;
