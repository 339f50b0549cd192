// What a call answers (document 01, "Sizes and answers").
#![tactic(auto)]

ghost use Rattle.std.specs.Prelude.{◌≡◌};
ghost use Rattle.answer.specs.Number.{number_of};

#[derive(Clone, Copy, PartialEq, Eq)]
pub enum Answer {
    // The call did what it says; a route is in the buffer where one was asked for.
    Done,
    // No accepted setup before.
    Uninitialised,
    // A number or a length outside document 01.
    BadInput,
    // The list of samples is used up, and no route was found.
    SamplesEnded,
    // A table has no place for what would be added.
    Full,
    // The roadmap is empty.
    Unsampled,
    // The query's start is not valid.
    InvalidStart,
    // No start connection, no goal milestone, or none reachable.
    NoSolution,
    // The route buffer is shorter than the call needs.
    Room,
}

// The answer's number in document 01's table.
impl From<Answer> for usize {
    ghost from_gives = { λ answer number. number ≡ number_of answer };

    fn from(answer: Answer) -> usize {
        match answer {
            Answer::Done => 0,
            Answer::Uninitialised => 1,
            Answer::BadInput => 2,
            Answer::SamplesEnded => 3,
            Answer::Full => 4,
            Answer::Unsampled => 5,
            Answer::InvalidStart => 6,
            Answer::NoSolution => 7,
            Answer::Room => 8,
        }
    }
}
