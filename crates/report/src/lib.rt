// The report of a finished run, counted up to the ceiling and then written where it fits.
// `report::report` takes what a run leaves (`Finished` in crate `term`). It promises the definition's report, its length up to the ceiling, and the
// buffer as it was where the report does not fit.
// Read specs/Promise; the parts stand in the crates `report_pairs` to `report_sections`.
#![tactic(auto)]

pub mod report;
