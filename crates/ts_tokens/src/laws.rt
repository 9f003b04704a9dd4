// What holds of every token that is read: it is of its form, and the longest that stands there.
ghost use Rattle.std.specs.Prelude.{◌≡◌, List, ℕ, Some, None, take, length, true, false, ◌<◌, ◌≤◌};
ghost use Rattle.ts_base.specs.Name.{is_word};
ghost use Rattle.ts_tokens.specs.TextForm.{closes, ClosesNoLater, ClosesNowhere};
ghost use Rattle.ts_tokens.specs.NumberForm.{IsNumber};
ghost use Rattle.ts_tokens.specs.Tokens.{closing, number_length, front};

use ts_text::TokenKind;

/// A word that is read is a word, and no longer one stands there.
pub fn a_word_is_the_longest()
    ensures is { (bytes : List ℕ) (size : ℕ) → front bytes ≡ Some (TokenKind.Word, size) →
        is_word (take size bytes) ≡ true }
    ensures longest { (bytes : List ℕ) (size : ℕ) → front bytes ≡ Some (TokenKind.Word, size) →
        (longer : ℕ) → size < longer → longer ≤ length bytes → is_word (take longer bytes) ≡ false }
{}

/// Behind an opening quote the end that is taken ends a text, and no text ends later.
pub fn a_text_is_the_longest()
    ensures ends { (bytes : List ℕ) (end : ℕ) → closing bytes ≡ Some end → closes (take end bytes) ≡ true }
    ensures longest { (bytes : List ℕ) (end : ℕ) → closing bytes ≡ Some end → ClosesNoLater bytes end }
    ensures none { (bytes : List ℕ) → closing bytes ≡ None → ClosesNowhere bytes }
{}

/// A number that is read is a number, and no longer one stands there; where none is read, none stands there.
pub fn a_number_is_the_longest()
    ensures is { (bytes : List ℕ) (size : ℕ) → number_length bytes ≡ Some size → IsNumber (take size bytes) }
    ensures longest { (bytes : List ℕ) (size : ℕ) → number_length bytes ≡ Some size →
        (longer : ℕ) → size < longer → longer ≤ length bytes → IsNumber (take longer bytes) → ⊥ }
    ensures none { (bytes : List ℕ) → number_length bytes ≡ None →
        (size : ℕ) → size ≤ length bytes → IsNumber (take size bytes) → ⊥ }
{}
