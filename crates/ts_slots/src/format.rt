// What the format of a volume asks of a row type.
ghost use Rattle.std.specs.Prelude.{◌↔◌, IsTrue};
ghost use Rattle.ts_layout.specs.Meaning.{IsOfFormat};

use ts_model::OLD_FORMAT;
use ts_row::RowType;

/// Whether a volume of the format may have the row type.
pub fn is_of_format(format: u8, kind: &RowType) -> bool
    ensures { IsTrue result ↔ IsOfFormat format kind.now }
{
    format != OLD_FORMAT || !kind.has_long_decimal()
}
