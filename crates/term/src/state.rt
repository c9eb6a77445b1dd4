// What a run says of its state by value; the goals, values and compounds stand in the scratch.

// Pairs and compounds charged, the first free word of the compounds, steps taken; where the queue begins and how many goals it has; how many places of the
// waiting log are used and how many goals wait; how many goals failed.
#[derive(Clone, Copy)]
pub struct Standing {
    pub pairs: usize,
    pub compounds: usize,
    pub cells: usize,
    pub front: usize,
    pub active: usize,
    pub log: usize,
    pub waiting: usize,
    pub failed: usize,
    pub steps: usize,
}

// "Ends `rest`", "`budget`", "`room`".
#[derive(Clone, Copy)]
pub enum Verdict {
    Rest,
    Budget,
    Room,
}
