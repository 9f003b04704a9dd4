// What the format of a volume has.
ghost use Rattle.ts_answer.specs.Answer.{beyond_old_format};
ghost use Rattle.ts_answer.specs.Tried.{IsTried};
ghost use Rattle.ts_define.specs.Format.{IsInFormat};

use ts_base::{Refusal, Trouble};
use ts_model::{Defs, OLD_FORMAT};

/// On a volume of format 1 what goes beyond it is refused: long decimals, and marks of elements.
pub fn in_format(defs: &Defs, beyond: bool) -> Result<(), Trouble>
    ensures { IsTried result (beyond_old_format beyond defs.now.definitions.format)
        (λ done has. IsInFormat beyond defs.now.definitions.format) }
{
    if beyond && defs.format() == OLD_FORMAT {
        return Err(Trouble::Refused(Refusal::OldFormat));
    }
    Ok(())
}
