// Elements that are kept.
ghost use Rattle.std.specs.Prelude.{◌≡◌, [], ◌∷◌, ◌++◌, None, OnOk, Some};
ghost use Rattle.ts_row.specs.Row.{Row as TheRow};
ghost use Rattle.ts_entry.specs.Entry.{AreSeenBytes, elements_in};

use crate::EntryVisitor;
use std::alloc::{AllocError, Global};
use std::marker::Model;
use ts_base::Stamp;
use ts_row::{Elem, RowType};

/// Keeps the elements that it is handed, each as a row, in the order in which they come. Stamps without an element are
/// passed over, and so are bytes that are no row's.
#[derive(Debug, Drop)]
pub struct KeptElements {
    items: Vec<Elem>,
}

impl Model for KeptElements {
    ghost use Rattle.std.specs.Prelude.{List};
    ghost use Rattle.ts_row.specs.Row.{Element};
    ghost use Rattle.ts_entry.specs.Entry.{elements_in};

    ghost Value = { List Element };

    ghost view = { λ k. elements_in k.items.items };
}

impl KeptElements {
    /// None; it takes no memory.
    pub fn new(alloc: Global) -> Self
        ensures { result ≡ [] }
    {
        KeptElements {
            items: Vec::new(alloc),
        }
    }

    /// Those that are kept, in the order in which they came.
    pub fn as_slice(&self) -> &[Elem]
        ensures { elements_in result.now ≡ self.now }
    {
        self.items.as_slice()
    }
}

impl EntryVisitor for KeptElements {
    ghost use Rattle.std.specs.Prelude.{◌≡◌, ◌++◌};
    ghost use Rattle.std.proofs.Common.{sym, ap, ◌∙◌, append_assoc, append-nil};
    ghost use Rattle.std.proofs.lemmas.List.Elements.{filter_map-append};
    ghost use Rattle.ts_entry.specs.Entry.{element_of, elements_of};

    ghost took = { λ columns v es w. w ≡ v ++ elements_of es };

    fn element(&mut self, kind: &RowType, stamp: Stamp, row: &[u8]) -> Result<(), AllocError> {
        if let Some(row) = kind.decode(row)? {
            self.items.push(Elem { stamp, row })?;
        }
        Ok(())
    }

    fn blank(&mut self, _kind: &RowType, _stamp: Stamp) -> Result<(), AllocError> {
        Ok(())
    }

    ghost none = { λ columns v. sym (append-nil v) };

    ghost then = { λ columns a b c es fs p q.
        q ∙ ap (λ l. l ++ elements_of fs) p ∙ append_assoc a (elements_of es) (elements_of fs)
        ∙ ap (λ l. a ++ l) (sym (filter_map-append element_of es fs)) };
}
