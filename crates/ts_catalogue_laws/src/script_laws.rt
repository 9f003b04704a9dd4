// Whatever script is read, what is behind it has catalogues.
ghost use Rattle.ts_catalogue_laws.specs.Scripts.{ScriptsAreFormed, ScriptsKeepCatalogues};

use crate::laws::a_run_keeps_catalogues;
use ts_statement_laws::statements_are_tokens;

/// Each command that a script asks for has its form, and each stamp that it names is one.
pub fn what_a_script_asks_for_is_formed()
    ensures { ScriptsAreFormed }
{
    statements_are_tokens();
}

/// Behind any script a run has catalogues, where it had before: what its volume means, and what a transaction has made
/// of it.
pub fn a_script_keeps_catalogues()
    ensures { ScriptsKeepCatalogues }
{
    a_run_keeps_catalogues();
    what_a_script_asks_for_is_formed();
}
