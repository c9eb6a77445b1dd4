// What is read where the report is written.

// What the report is written from: the text, the scratch, and where what is kept of the run's pairs begins there.
#[derive(Clone, Copy)]
pub struct Source<'a> {
    pub text: &'a [u8],
    pub s: &'a [u64],
    pub facts: usize,
}
