// What holds of every statement, in the words of one who writes it.
ghost use Rattle.std.specs.Prelude.{◌≡◌, List, [], ◌∷◌, ◌++◌, ℕ, Some, map};
ghost use Rattle.ts_items.specs.Items.{items_from, place_from};
ghost use Rattle.ts_text.specs.Spelling.{AreItsTokens};
ghost use Rattle.ts_text.specs.Place.{everywhere, RefusesInPlace};
ghost use Rattle.ts_tokens.specs.Tokens.{front};
ghost use Rattle.ts_command.specs.Grammar.{command_of, request_of, requests};

/// A statement that is a command is tokens with blanks between them, then blanks and the `;`. Where it is refused,
/// whole tokens with their blanks stand before the place.
pub fn a_statement_is_its_tokens()
    ensures { AreItsTokens front (59 ∷ []) command_of }
{}

/// Where a statement is refused, what stands before the place goes on to a statement; with the token that stands at the
/// place none does: whatever comes behind it that leaves it this token, it is refused at this place. Nothing is said of
/// bytes that begin no token.
pub fn statements_are_refused_in_place()
    ensures { RefusesInPlace (everywhere front) command_of }
{}

/// What the front of a script asks for comes first in what the script asks for.
pub fn requests_of_a_front_come_first()
    ensures { (front_of rest : List ℕ) →
        requests (front_of ++ rest) ≡ requests front_of
        ++ map request_of (items_from (place_from (Some []) front_of) rest) }
{}
