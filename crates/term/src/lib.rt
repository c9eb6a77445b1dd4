// The scratch that is lent to a call: its regions, the words of a term, and clearing it.
// `layout` draws every region and gives its place; the need stays under document 01's ceiling. `word` takes a term's word apart; the circle test
// and following look at its tag themselves. `goal` makes a goal's mark and takes a goal's word apart. `scratch` reads and sets a word by its place. `clear` zeroes the needed part
// and nothing beyond it. `guards` is the table of guards. What it is for the scratch to hold a term, values, a job and a state
// stands in specs/ (Words, Cells, Holds, Jobs, Guards, Spellings, States), with the frames in proofs/: a write into one region keeps what the others hold.
#![tactic(auto)]

pub mod clear;
pub mod goal;
pub mod guards;
pub mod layout;
pub mod scratch;
pub mod state;
pub mod word;
