// Why a text is refused: 4, 11, 5, 9, 10 or 6, under the names of the definitions' `Answer`. One enum from the loader to the exported call.
ghost use Rattle.std.specs.Prelude.{◌≡◌};
ghost use Rattle.meaning.specs.Call.{rule_number as number_of_rule, number as number_of, line_of, offset_of};
ghost use Rattle.load_faults.specs.Finding.{rule_of};
ghost use Rattle.loader.specs.Refusals.{refusal_answer};

use load_faults::faults::Broken;

// The line, and behind it the byte, where the number has one.
#[derive(Clone, Copy)]
pub enum Refusal {
    NoItems(usize, usize),
    GuardRefused(usize),
    OccurrenceBroken(Broken, usize, usize),
    FigurePassed(usize),
}

// "5 (the same half twice), 9 (a writer without its reader) and 10 (a reader without its writer)."
#[tactic(auto, unfolding(meaning::specs::Call::rule_number))]
pub fn rule_number(rule: Broken) -> u32
    ensures { result ≡ number_of_rule (rule_of rule) }
{
    match rule {
        Broken::Twice => 5,
        Broken::WriterAlone => 9,
        Broken::ReaderAlone => 10,
    }
}

impl Refusal {
    #[tactic(auto, unfolding(meaning::specs::Call::number))]
    pub fn number(self) -> u32
        ensures { result ≡ number_of (refusal_answer self) }
    {
        match self {
            Refusal::NoItems(_, _) => 4,
            Refusal::GuardRefused(_) => 11,
            Refusal::OccurrenceBroken(rule, _, _) => rule_number(rule),
            Refusal::FigurePassed(_) => 6,
        }
    }

    #[tactic(auto, unfolding(meaning::specs::Call::line_of))]
    pub fn line(self) -> usize
        ensures { result ≡ line_of (refusal_answer self) }
    {
        match self {
            Refusal::NoItems(line, _)
            | Refusal::GuardRefused(line)
            | Refusal::OccurrenceBroken(_, line, _)
            | Refusal::FigurePassed(line) => line,
        }
    }

    // "4, 5, 9 and 10 also return a byte offset, 0 with every other number."
    #[tactic(auto, unfolding(meaning::specs::Call::offset_of))]
    pub fn offset(self) -> usize
        ensures { result ≡ offset_of (refusal_answer self) }
    {
        match self {
            Refusal::NoItems(_, offset) | Refusal::OccurrenceBroken(_, _, offset) => offset,
            Refusal::GuardRefused(_) | Refusal::FigurePassed(_) => 0,
        }
    }
}
