// Bytes put into the buffer: one, all of a slice, a spelling of the text, a number in decimal.
// Each function promises its bytes at their place, every other byte as it was, and the place behind them.
// Read `Puts` in crate `report_pairs`.
#![tactic(auto)]

pub mod put;
