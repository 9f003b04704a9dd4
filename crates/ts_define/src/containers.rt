// The routine that creates a container.
ghost use Rattle.std.specs.Prelude.{◌≡◌, ◌+◌, ◌≤◌, ℕ, IfOk, length};
ghost use Rattle.ts_command.specs.declared.command.Command.TheVariants.{TSContainerCreate};
ghost use Rattle.ts_command.specs.Form.{HasForm};
ghost use Rattle.ts_page.specs.Pages.{first_element_page};
ghost use Rattle.ts_model.specs.Definitions.{container_slots};
ghost use Rattle.ts_layout.specs.Meaning.{sum_of_quotas};
ghost use Rattle.ts_model.specs.declared.kind.Kind.TheVariants.{Container as Containers};
ghost use Rattle.ts_answer.specs.Decided.{IsDecision, FitsSlot};

use crate::slots::{slot_for, slot_named};
use ts_base::{Name, Refusal, Trouble};
use ts_container::sum_of_quotas;
use ts_model::{Def, Defs, Kind};

/// The definition of a new container, and the slot for it, where there are so many element pages.
pub fn new_container(
    defs: &Defs,
    pages: u32,
    name: &Name,
    row_type: &Name,
    quota: i64,
) -> Result<(u16, Option<Def>), Trouble>
    requires slots { length defs.now.definitions.containers ≡ container_slots }
    requires granted { sum_of_quotas defs.now.definitions.containers ≤ pages }
    requires form { HasForm (TSContainerCreate name.now row_type.now quota) }
    ensures fits { IfOk result (λ change. FitsSlot Containers change.0 change.1 defs.now.definitions) }
    ensures decision { (count : ℕ) → count ≡ first_element_page + pages
        → IsDecision Containers (TSContainerCreate name.now row_type.now quota) result defs.now.definitions count }
{
    let target = slot_named(defs, Kind::RowType, row_type)?;
    let slot = slot_for(defs, Kind::Container, name)?;
    let size = quota.unsigned_abs();
    let granted = sum_of_quotas(defs);
    let sum = granted + size;
    if sum > pages as u64 {
        return Err(Trouble::Refused(Refusal::VolumeFull { sum, pages }));
    }
    let copied = name.copy()?;
    Ok((
        slot,
        Some(Def::Container {
            name: copied,
            row_type: target as u8,
            quota: size as u32,
        }),
    ))
}
