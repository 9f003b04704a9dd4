// The marks of series that may have hidden elements, and the law that they stand on.
use std::alloc::{AllocError, Global};
use std::test::Fail;
use ts_base::{Key, Stamp};
use ts_command::Command;
use ts_hidden::{Marks, only_hide_elem_hides};
use ts_model::{Def, Defs, Kind};

// The key of a series.
fn key(alloc: Global, text: &[u8]) -> Result<Key, Fail> {
    match Key::read(alloc, text)? {
        Some(key) => Ok(key),
        None => Err(Fail::from("no key")),
    }
}

// The definitions of a store that has an irregular series of this key alone.
fn with_series(alloc: Global, text: &[u8]) -> Result<Defs, Fail> {
    let mut defs = Defs::new(alloc);
    let key = key(alloc, text)?;
    defs.reserve(Kind::Series)?;
    if defs.find(Kind::Series, key.as_slice()).is_none() {
        let series = Def::Series {
            key,
            container: 0,
            regular: None,
        };
        defs.set(Kind::Series, 0, Some(series));
    }
    Ok(defs)
}

// The marks of a store without series, and that of the series x.
fn marked(alloc: Global) -> Result<Marks, Fail> {
    let defs = Defs::new(alloc);
    let mut marks = Marks::of_slots(alloc, &defs, &[])?;
    marks.mark(&key(alloc, b"x")?)?;
    Ok(marks)
}

// A HideElem of the series y, in a list of one.
fn hiding(alloc: Global) -> Result<Vec<Command>, Fail> {
    let Some(stamp) = Stamp::of(0) else {
        return Err(Fail::from("no stamp"));
    };
    let key = key(alloc, b"y")?;
    let mut commands = Vec::new(alloc);
    commands.push(Command::HideElem { key, stamp })?;
    Ok(commands)
}

// A GetNthElem of the series y, in a list of one.
fn counting(alloc: Global) -> Result<Vec<Command>, Fail> {
    let key = key(alloc, b"y")?;
    let mut commands = Vec::new(alloc);
    commands.push(Command::GetNthElem { key, index: 0 })?;
    Ok(commands)
}

// Notes each of the commands, in a store with these definitions.
fn note_all(marks: &mut Marks, commands: &[Command], defs: &Defs) -> Result<(), AllocError> {
    for command in commands {
        marks.note(command, defs)?;
    }
    Ok(())
}

// Whether each of them counts the entries of a series that isn't marked.
fn all_unmarked(marks: &Marks, commands: &[Command]) -> bool {
    commands.iter().all(|command| marks.has_unmarked(command))
}

#[test]
fn a_series_is_marked_by_its_key(rt: HostRuntime) -> Result<(), Fail> {
    let marks = marked(rt.alloc())?;
    let (same, other) = (key(rt.alloc(), b"x")?, key(rt.alloc(), b"y")?);
    assert!(rt; marks.has(&same) && !marks.has(&other));
    Ok(())
}

#[test]
fn a_series_is_marked_by_its_first_hidden_element(rt: HostRuntime) -> Result<(), Fail> {
    let mut marks = marked(rt.alloc())?;
    let (hides, counts) = (hiding(rt.alloc())?, counting(rt.alloc())?);
    note_all(&mut marks, &hides, &Defs::new(rt.alloc()))?;
    let was = all_unmarked(&marks, &counts);
    note_all(&mut marks, &hides, &with_series(rt.alloc(), b"y")?)?;
    assert!(rt; was && !all_unmarked(&marks, &counts));
    Ok(())
}

#[test]
fn the_law_of_hidden_elements_is_called() {
    only_hide_elem_hides();
}
