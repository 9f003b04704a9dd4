// What the last lines of replies tell.
ghost use Rattle.ts_answer.specs.Outcomes.{OkLinesAreAnswers, CountsAreOfOutcomes};

/// A reply ends with an `ok` line exactly where its command isn't refused.
pub fn ok_lines_are_answers()
    ensures { OkLinesAreAnswers }
{}

/// The two counts that `gen` says are of the commands that were answered and of those that were refused.
pub fn counts_are_of_outcomes()
    ensures { CountsAreOfOutcomes }
{}
