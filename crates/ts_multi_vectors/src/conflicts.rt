// Logs of commits, and the conflicts of transactions.
use std::alloc::{AllocError, Global};
use ts_base::Bytes;
use ts_model::Kind;
use ts_multi::{Object, ObjectList, Sessions, Touched};

// The object of a kind with a name of one letter, as a list.
fn one(alloc: Global, kind: Kind, letter: u8) -> Result<ObjectList, AllocError> {
    let mut items = Vec::new(alloc);
    items.push(Object {
        kind,
        name: Bytes::from_slice(alloc, &[letter])?,
    })?;
    Ok(ObjectList::from_vec(items))
}

// A command that writes a series and names a container.
fn touching(alloc: Global, series: u8, container: u8) -> Result<Touched, AllocError> {
    Ok(Touched {
        wrote: one(alloc, Kind::Series, series)?,
        named: one(alloc, Kind::Container, container)?,
    })
}

#[test]
fn the_later_of_two_edits_of_a_series_is_refused(rt: HostRuntime) -> Result<(), AllocError> {
    let mut sessions = Sessions::new(rt.alloc(), 2)?;
    let first = touching(rt.alloc(), b'x', b'k')?;
    let second = touching(rt.alloc(), b'x', b'c')?;
    sessions.begin(1);
    sessions.reserve()?;
    sessions.note(1, first);
    sessions.begin(0);
    sessions.reserve()?;
    sessions.note(0, second);
    assert!(rt; sessions.conflict(1).is_none());
    sessions.reserve()?;
    sessions.commit(1);
    assert!(rt; !sessions.is_open(1));
    assert!(rt; sessions.conflict(0) == Some(1));
    sessions.end(0);
    assert!(rt; !sessions.is_open(0));
    Ok(())
}
