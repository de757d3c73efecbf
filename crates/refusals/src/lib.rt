// What a call refuses with: the numbers of document 01, by name.
#![tactic(auto)]

ghost use Rattle.std.specs.Prelude.{◌≡◌};
ghost use Rattle.refusals.specs.Numbers.{number_for};

#[derive(Clone, Copy, Debug, PartialEq, Eq)]
pub enum Refusal {
    Malformed,
    OverLimit,
    Unrelated,
    TooManyDots,
    TooManyEntries,
    TooManyValues,
    TooManyWaiting,
    TooManyKeys,
    CounterSpent,
    ShortBuffer,
    Gap,
    DoubleSpent,
    Ended,
    NoBay,
    EndsElsewhere,
    TooManyOperations,
    TooManyPeers,
    Foreign,
    Seen,
    Hold,
}

impl Refusal {
    // The number that a call answers.
    pub fn number(self) -> u8
        ensures { result ≡ number_for self }
    {
        match self {
            Refusal::Malformed => 1,
            Refusal::OverLimit => 2,
            Refusal::Unrelated => 3,
            Refusal::TooManyDots => 4,
            Refusal::TooManyEntries => 5,
            Refusal::TooManyValues => 6,
            Refusal::TooManyWaiting => 7,
            Refusal::TooManyKeys => 8,
            Refusal::CounterSpent => 9,
            Refusal::ShortBuffer => 10,
            Refusal::Gap => 11,
            Refusal::DoubleSpent => 12,
            Refusal::Ended => 13,
            Refusal::NoBay => 14,
            Refusal::EndsElsewhere => 16,
            Refusal::TooManyOperations => 17,
            Refusal::TooManyPeers => 18,
            Refusal::Foreign => 19,
            Refusal::Seen => 20,
            Refusal::Hold => 21,
        }
    }
}
