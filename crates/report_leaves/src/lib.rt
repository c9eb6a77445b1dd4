// The bytes of what needs no walk put into the buffer: a variable, an integer, a name, the empty list, and what stands before a compound's first argument.
// `Source::leaf` promises the definition's bytes of a term that is no compound, `Source::opening` those before the first argument, `Source::copied` those of a
// value that stands in the buffer already, or none.
// Read specs/Writes for what writing asks, and specs/Fits for what copying does.
#![tactic(auto)]

pub mod copy;
pub mod leaf;
pub mod source;
