// Scripts whose items wait, and picks that fall on sessions.
use crate::{Piece, Script, next_session, scripts_of};
use std::alloc::{AllocError, Global};
use ts_base::Bytes;

// What the items of a script are, in their order: `s` a statement, `l` a long one, `u` one without an end.
fn signs(alloc: Global, text: &[u8]) -> Result<Vec<u8>, AllocError> {
    let mut script = Script::new(alloc, text)?;
    let mut signs = Vec::new(alloc);
    for _ in 0..text.len() {
        match script.take() {
            None => return Ok(signs),
            Some(Piece::Statement(_)) => signs.push(b's')?,
            Some(Piece::TooLong) => signs.push(b'l')?,
            Some(Piece::Unended) => signs.push(b'u')?,
        }
    }
    Ok(signs)
}

#[test]
fn a_script_ends_with_what_it_cuts_off(rt: HostRuntime) -> Result<(), AllocError> {
    assert!(rt;
        signs(rt.alloc(), b"Begin; ;\nInsElem('x;','D01',1);Commit")?.as_slice()
            == b"ssu".as_slice()
    );
    Ok(())
}

#[test]
fn statements_come_in_their_order(rt: HostRuntime) -> Result<(), AllocError> {
    let mut script = Script::new(rt.alloc(), b"Begin;Commit;")?;
    let Some(Piece::Statement(first)) = script.take() else {
        assert!(rt; false);
        return Ok(());
    };
    assert!(rt; first.text.as_slice() == b"Begin;".as_slice());
    assert_eq!(rt; script.left(), 1);
    Ok(())
}

// Of three sessions the second has no item: pick 5 falls on the second of the two others, pick 4 on the first.
#[test]
fn a_pick_falls_on_a_session_that_waits(rt: HostRuntime) -> Result<(), AllocError> {
    let alloc = rt.alloc();
    let mut sections = Vec::new(alloc);
    for text in [b"Begin;".as_slice(), b"".as_slice(), b"Commit;".as_slice()] {
        sections.push(Bytes::from_slice(alloc, text)?)?;
    }
    let scripts = scripts_of(alloc, sections.as_slice())?;
    assert_eq!(rt; next_session(5, scripts.as_slice()), Some(2));
    assert_eq!(rt; next_session(4, scripts.as_slice()), Some(0));
    Ok(())
}
