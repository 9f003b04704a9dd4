// What texts are statements, and of which command.
ghost use Rattle.ts_statement_laws.specs.Laws.{StatementsAreTokens};

/// A text is read as a command exactly where it is the tokens of that command, each the longest that stands in its
/// place, with blanks between them and a `;` at the end.
pub fn statements_are_tokens()
    ensures { StatementsAreTokens }
{}
