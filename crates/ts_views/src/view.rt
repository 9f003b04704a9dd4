// One view.
use ts_command::Command;
use ts_journal::Batch;
use ts_model::Defs;
use ts_space::Space;

/// The catalogue of an open transaction: the newest one at its begin, with its own commands carried out.
#[derive(Drop)]
pub struct View {
    /// The definitions of the view's pages.
    pub defs: Defs,
    /// Their directory.
    pub space: Space,
    /// The numbers of their free element pages; the next to be taken stands last.
    pub free: Vec<u32>,
    /// Pages as they were at the begin, of which others have since committed changes.
    pub old: Batch,
    /// What the transaction's commands changed.
    pub own: Batch,
    /// Its accepted writing commands, the first one first.
    pub commands: Vec<Command>,
}
