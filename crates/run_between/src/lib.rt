// What it is to be between two steps of a run, what a step promises, and what a reduction makes of a run's state: the goal's unit grows by the
// clause's pairs and compounds, all else stays held, and the goals that it wakes join the queue.
// There is no code here, and so no edit: the laws of both stand together.
// Read specs/Running and specs/Taking, then specs/Extended, proofs/NextUnits and proofs/NextState.
#![tactic(auto)]
