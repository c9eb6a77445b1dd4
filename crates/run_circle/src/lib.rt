// The circle test of a trial that has agreed: whether a pair would lean on itself with what the trial gives.
// It promises the definition's answer, and that only marks have changed afterwards (specs/Circle). Read specs/Search for the search, and specs/Ground
// for what marks tell: pairs that no search enters again, and pairs from which one goes on elsewhere at once.
#![tactic(auto)]

pub mod circle;
