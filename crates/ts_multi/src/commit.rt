// What a commit wrote.
ghost use Rattle.std.specs.Prelude.{◌≡◌};
ghost use Rattle.std.specs.List.{list_any};
ghost use Rattle.ts_multi.specs.Objects.{written, meets, is_touched, has_object, touched_by};

use crate::object::{Object, Touched};
use std::marker::Model;

/// The commands of a commit.
#[derive(Drop)]
enum Source {
    /// One outside a transaction.
    Alone(Touched),
    /// Those of a transaction, the first of them first.
    Transaction(Vec<Touched>),
}

/// A commit: the objects that its commands wrote.
#[derive(Drop)]
pub(crate) struct Commit {
    by: Source,
}

impl Model for Commit {
    ghost use Rattle.std.specs.Prelude.{List};
    ghost use Rattle.ts_multi.specs.declared.object.Object.{Object};

    ghost Value = { List Object };

    ghost use Rattle.ts_multi.specs.Commit.{wrote_by};

    ghost view = { λ c. wrote_by c.by };
}

impl Commit {
    /// By one command outside a transaction.
    pub(crate) fn alone(touched: Touched) -> Commit
        ensures { result ≡ touched.wrote }
    {
        Commit {
            by: Source::Alone(touched),
        }
    }

    /// By the commands of a transaction.
    pub(crate) fn of_transaction(noted: Vec<Touched>) -> Commit
        ensures { result ≡ written noted.items }
    {
        Commit {
            by: Source::Transaction(noted),
        }
    }

    /// It wrote an object that one of these commands writes or names.
    pub(crate) fn meets(&self, noted: &[Touched]) -> bool
        ensures { result ≡ meets self.now noted.now }
    {
        match &self.by {
            Source::Alone(command) => command.writes_among(noted),
            Source::Transaction(commands) => any_writes_among(commands, noted),
        }
    }
}

// One of the first commands writes an object that one of the others writes or names.
fn any_writes_among(commands: &[Touched], noted: &[Touched]) -> bool
    ensures { result ≡ list_any (λ t. meets t.wrote noted.now) commands.now }
{
    commands.iter().any(|command| command.writes_among(noted))
}

impl Touched {
    // It writes an object that one of these commands writes or names.
    fn writes_among(&self, noted: &[Touched]) -> bool
        ensures { result ≡ meets self.now.wrote noted.now }
    {
        self.wrote
            .as_slice()
            .iter()
            .any(|object| is_touched(object, noted))
    }

    // It writes or names the object.
    fn has(&self, object: &Object) -> bool
        ensures { result ≡ has_object object.now (touched_by self.now) }
    {
        self.wrote.has(object) || self.named.has(object)
    }
}

// One of these commands writes or names the object.
fn is_touched(object: &Object, noted: &[Touched]) -> bool
    ensures { result ≡ is_touched object.now noted.now }
{
    noted.iter().any(|command| command.has(object))
}
