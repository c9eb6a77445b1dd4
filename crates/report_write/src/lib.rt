// The bytes of a term put into the buffer.
// `write_term` promises the definition's bytes at their place and every other byte as it was; it asks for pairs that have their numbers and for a buffer
// that has the room (specs/Writes and specs/Fits in crate `report_leaves`, where the parts stand that need no walk). A value that stands there is copied.
// Read specs/Frames for the places that it keeps of the compounds around it.
#![tactic(auto)]

pub mod rising;
pub mod terms;
