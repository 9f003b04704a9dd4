// The objects of a catalogue that commands touch.
ghost use Rattle.std.specs.Prelude.{◌≡◌, [], ◌∷◌, ◌++◌, IfOk, OnOk, OnErr};
ghost use Rattle.std.specs.List.{list_any};
ghost use Rattle.ts_multi.specs.Objects.{same_kind, same_object, has_object};

use std::alloc::{AllocError, Global};
use std::marker::Model;
use ts_base::Bytes;
use ts_model::Kind;

/// An object of a catalogue: its kind, and its name or key.
#[derive(Debug, Drop)]
pub struct Object {
    pub kind: Kind,
    pub name: Bytes,
}

/// Objects, one behind the other.
#[derive(Debug, Drop)]
pub struct ObjectList {
    items: Vec<Object>,
}

impl Model for ObjectList {
    ghost use Rattle.std.specs.Prelude.{List};
    ghost use Rattle.ts_multi.specs.declared.object.Object.{Object};

    ghost Value = { List Object };

    ghost view = { λ l. l.items.items };
}

/// What a command touches: the objects that it writes (makes, drops or edits), and the others that it names.
#[derive(Debug, Drop)]
pub struct Touched {
    pub wrote: ObjectList,
    pub named: ObjectList,
}

impl ObjectList {
    /// No objects; it takes no memory.
    pub fn new(alloc: Global) -> ObjectList
        ensures { result ≡ [] }
    {
        ObjectList {
            items: Vec::new(alloc),
        }
    }

    /// Takes a list as it is.
    pub fn from_vec(items: Vec<Object>) -> ObjectList
        ensures { result ≡ items.items }
    {
        ObjectList { items }
    }

    /// Gives the list back.
    pub fn into_vec(self) -> Vec<Object>
        ensures { result.items ≡ self }
    {
        let ObjectList { items } = self;
        items
    }

    pub fn as_slice(&self) -> &[Object]
        ensures { result.now ≡ self.now }
    {
        self.items.as_slice()
    }

    /// Puts an object of this kind and name to the end.
    pub(crate) fn push(&mut self, alloc: Global, kind: Kind, name: &[u8]) -> Result<(), AllocError>
        ensures ok { OnOk result (self.new ≡ self.old ++ record { kind = kind; name = name.now } ∷ []) }
        ensures err { OnErr result (self.new ≡ self.old) }
    {
        let name = Bytes::from_slice(alloc, name)?;
        self.items.push(Object { kind, name })?;
        Ok(())
    }

    /// The object is among these.
    pub(crate) fn has(&self, object: &Object) -> bool
        ensures { result ≡ has_object object.now self.now }
    {
        self.items.iter().any(|other| other.is(object))
    }
}

impl Object {
    // Of one kind and one name.
    fn is(&self, other: &Object) -> bool
        ensures { result ≡ same_object self.now other.now }
    {
        is_same_kind(self.kind, other.kind) && self.name.as_slice() == other.name.as_slice()
    }
}

fn is_same_kind(a: Kind, b: Kind) -> bool
    ensures { result ≡ same_kind a b }
{
    a == b
}
