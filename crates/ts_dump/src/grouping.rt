// Statements in transactions of 32, told on the way.
ghost use Rattle.std.specs.Prelude.{◌≡◌, ◌++◌, OnOk};
ghost use Rattle.ts_dump_texts.specs.Script.{script_of};
ghost use Rattle.ts_dump.specs.Grouping.{first_of, opening, next};

use std::alloc::AllocError;
use ts_base::Bytes;

/// So many statements stand in a transaction at most.
const MOST: u8 = 32;

/// Where the next statement of a script stands.
#[derive(Clone, Copy, Debug, PartialEq, Eq)]
pub(crate) enum Grouping {
    /// By itself, as each of them.
    Alone,
    /// In the first transaction, which isn't begun.
    First,
    /// In a transaction that has room for so many more, or in the next one where it has none.
    Open { room: u8 },
}

impl Grouping {
    /// Where the first one stands, in a transaction or by itself.
    pub(crate) fn first(in_transactions: bool) -> Grouping
        ensures { result ≡ first_of in_transactions }
    {
        if in_transactions {
            Grouping::First
        } else {
            Grouping::Alone
        }
    }

    /// Puts what stands before the next one, and goes on to the one behind it.
    pub(crate) fn begin(&mut self, out: &mut Bytes) -> Result<(), AllocError>
        ensures next { OnOk result (self.new ≡ next self.old) }
        ensures put { OnOk result (out.new ≡ out.old ++ script_of (opening self.old)) }
    {
        match *self {
            Grouping::Alone => Ok(()),
            Grouping::First => {
                *self = Grouping::Open { room: MOST - 1 };
                out.extend_from_slice(b"Begin;\n")
            }
            Grouping::Open { room: 0 } => {
                *self = Grouping::Open { room: MOST - 1 };
                out.extend_from_slice(b"Commit;\nBegin;\n")
            }
            Grouping::Open { room } => {
                *self = Grouping::Open { room: room - 1 };
                Ok(())
            }
        }
    }
}
