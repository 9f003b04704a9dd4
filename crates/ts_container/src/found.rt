// What is found where definitions stand.
use ts_base::Name;

/// What is found in a slot or on a page.
#[derive(Clone, Copy, Debug, PartialEq, Eq)]
pub enum Found {
    Good,
    /// A definition has the name of another in a lower slot, or refers to an empty slot.
    Unresolved,
    /// Bytes that are none of the format.
    Bad,
}

/// A calendar that breaks a rule, which isn't kept among the definitions: its slot and its name.
#[derive(Debug, Drop)]
pub struct Broken {
    pub slot: u16,
    pub name: Name,
}
