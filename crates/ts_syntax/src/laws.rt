// What holds of the mistakes of every script, in the words of one who writes it.
ghost use Rattle.std.specs.Prelude.{◌≡◌, List, ℕ, map};
ghost use Rattle.ts_syntax.specs.Mistakes.{mistakes};
ghost use Rattle.ts_syntax.specs.Laws.{refusals, StandInTurn};

/// The mistakes of a script are its refused statements, in their order and for the same causes, and nothing else.
pub fn mistakes_are_the_refusals()
    ensures { (script : List ℕ) → map (λ m. m.refusal) (mistakes script) ≡ refusals script }
{}

/// Each mistake stands in the bytes of a refused statement of its own, in the order of the statements, where the
/// grammar refuses them. As there are just as many mistakes as refusals, no other list keeps both laws.
pub fn mistakes_stand_in_their_statements()
    ensures { (script : List ℕ) → StandInTurn script 0 (mistakes script) }
{}
