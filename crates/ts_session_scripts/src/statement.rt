// The text of a statement.
ghost use Rattle.std.specs.Prelude.{◌≤◌, length};

use ts_base::Bytes;

/// A statement with its `;`.
#[derive(Drop)]
pub struct Statement {
    pub text: Bytes,
    pub ghost short: { length text ≤ 65536 },
}
