// What the format of a volume asks of a page of elements.
ghost use Rattle.std.specs.Prelude.{◌≡◌, ◌↔◌, false, IsTrue};
ghost use Rattle.ts_model.specs.Catalogue.{old_format};

use ts_model::OLD_FORMAT;

/// Whether a volume of the format may have a page with a hidden element, or without one.
pub(crate) fn may_hide(format: u8, hidden: bool) -> bool
    ensures { IsTrue result ↔ (format ≡ old_format → hidden ≡ false) }
{
    format != OLD_FORMAT || !hidden
}
