// What the texts of statements are read as.
ghost use Rattle.ts_dump_texts.specs.Laws.{TextsAreReadAgain, LiteralsGiveRows, TextsAreLines};
ghost use Rattle.ts_dump_texts.specs.Script.{ScriptsAskForLines};

use ts_arguments::printed_values_are_read_again;

/// The text of each statement is read as it, where its parts are those of a catalogue. That of an element is read with
/// literals that give its row back, which is visible then.
pub fn texts_are_read_as_their_statements()
    ensures statements { TextsAreReadAgain }
    ensures rows { LiteralsGiveRows }
{
    printed_values_are_read_again();
}

/// The text of each statement is one line: it begins with a word, has one `;` that stands in no quotes, at its end, and
/// isn't too long for a statement.
pub fn texts_are_lines()
    ensures { TextsAreLines }
{}

/// A script of such lines asks for the commands that they are read as, in their order, and for nothing more.
pub fn scripts_ask_for_their_lines()
    ensures { ScriptsAskForLines }
{}
