// What holds up a clause: a guard, or a whole trial.

// It waits on readers that the step has met, so many in the set; or it fails.
#[derive(Clone, Copy)]
pub enum Hindered {
    Waits(usize),
    Fails,
}
