// What an engine keeps, to be read by those that keep views beside it.
ghost use Rattle.std.specs.Prelude.{◌≡◌};

use crate::engine::Engine;
use std::alloc::Global;
use ts_model::Defs;
use ts_space::Space;
use ts_store::Store;

impl Engine {
    /// Its store.
    pub fn store(&self) -> &Store
        ensures { result.now ≡ self.now.store }
    {
        &self.store
    }

    /// The definitions of its volume, with the changes of the transaction.
    pub fn defs(&self) -> &Defs
        ensures { result.now ≡ self.now.tables }
    {
        &self.defs
    }

    /// The directory of its volume, with the changes of the transaction.
    pub fn space(&self) -> &Space
        ensures { result.now ≡ self.now.space }
    {
        &self.space
    }

    /// How often the disk had failed when it failed this engine, if it did.
    pub fn spent(&self) -> Option<u64>
        ensures { result ≡ self.now.spent }
    {
        self.spent
    }

    /// The memory that it was made with.
    pub fn allocator(&self) -> Global {
        self.alloc
    }
}
