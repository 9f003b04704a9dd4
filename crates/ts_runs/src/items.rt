// Scripts cut into their items, in pieces of every length.
ghost use Rattle.std.specs.Prelude.{◌<◌};

use std::alloc::{AllocError, Global};
use std::test::Fail;
use ts_items::{Cut, Fed, Reader};

// Notes an item: a statement behind a `<`, `T` for one that is too long, `U` for one that the end cuts off.
fn note(items: &mut Vec<u8>, cut: Option<Cut>, text: &[u8]) -> Result<(), AllocError> {
    match cut {
        Some(Cut::Statement) => {
            items.push(b'<')?;
            items.extend_from_slice(text)?;
        }
        Some(Cut::TooLong) => items.push(b'T')?,
        Some(Cut::Unended) => items.push(b'U')?,
        None => {}
    }
    Ok(())
}

// Feeds a piece whole.
fn feed_all(reader: &mut Reader, piece: &[u8], items: &mut Vec<u8>) -> Result<(), AllocError> {
    let mut rest = piece;
    while !rest.is_empty() {
        let fed = reader.feed(rest);
        note(items, fed.cut, reader.text())?;
        rest = &rest[fed.taken..];
    }
    Ok(())
}

// The items of a script that comes in pieces of this length.
fn items_of(alloc: Global, script: &[u8], piece: usize) -> Result<Vec<u8>, AllocError>
    requires { 0 < piece }
{
    let mut reader = Reader::new(alloc)?;
    let mut items = Vec::new(alloc);
    for bytes in script.chunks(piece) {
        feed_all(&mut reader, bytes, &mut items)?;
    }
    let cut = reader.finish();
    note(&mut items, cut, b"")?;
    Ok(items)
}

// So many bytes of one kind, and then others.
fn padded(alloc: Global, byte: u8, count: usize, behind: &[u8]) -> Result<Vec<u8>, AllocError> {
    let mut script = Vec::new(alloc);
    for _ in 0..count {
        script.push(byte)?;
    }
    script.extend_from_slice(behind)?;
    Ok(script)
}

#[test]
fn every_cutting_gives_the_same_items(rt: HostRuntime) -> Result<(), Fail> {
    let alloc = rt.alloc();
    let page: [(&[u8], &[u8]); 12] = [
        (b"", b""),
        (b" ;; ", b""),
        (b"a;b;", b"<a;<b;"),
        (b" \t\r\n;a ; b;\n", b"<a ;< b;"),
        (b"InsElem('x','day',1); GetEl", b"<InsElem('x','day',1);U"),
        (b"f('a;b');g", b"<f('a;b');U"),
        (b"f('it''s;');", b"<f('it''s;');"),
        (b"f('''');'", b"<f('''');U"),
        (b"f(';", b"U"),
        (b"';'';';x;", b"<';'';';<x;"),
        (b"f('a');'b';''", b"<f('a');<'b';U"),
        (b"a;\x0b;", b"<a;<\x0b;"),
    ];
    for (script, items) in page {
        for piece in 1..=script.len() + 1 {
            let found = items_of(alloc, script, piece)?;
            assert_eq!(rt; found.as_slice(), items, "in pieces of {piece}");
        }
    }
    Ok(())
}

#[test]
fn a_statement_has_at_most_65536_bytes_with_its_end(rt: HostRuntime) -> Result<(), Fail> {
    let alloc = rt.alloc();
    // So many bytes of one kind, and what comes behind them; the piece; the items.
    let page: [(u8, usize, &[u8], usize, &[u8]); 13] = [
        (b'x', 65536, b";y;", 1, b"T<y;"),
        (b'x', 65536, b";y;", 7, b"T<y;"),
        (b'x', 65536, b";y;", 65535, b"T<y;"),
        (b'x', 65536, b";y;", 65536, b"T<y;"),
        (b'x', 65536, b";y;", 65537, b"T<y;"),
        (b'x', 65536, b";y;", 65540, b"T<y;"),
        // A quote in what is skipped counts neither there nor in the next statement.
        (b'x', 65536, b"''';y';z;';", 1000, b"T<y';z;';"),
        (b'\'', 65535, b"x;'y;", 65536, b"TU"),
        (b'x', 65536, b" and the end of the script", 3, b"T"),
        // Blanks count from the start of a statement; 65536 of them are one, and the next begins behind them.
        (b' ', 65522, b"GetNelems('n');a;", 65536, b"T<a;"),
        (b'\n', 65536, b"a;", 100, b"<a;"),
        (b' ', 65535, b"a;b;", 65536, b"T<b;"),
        (b' ', 200_000, b"", 65536, b""),
    ];
    for (byte, count, behind, piece, items) in page {
        let script = padded(alloc, byte, count, behind)?;
        let found = items_of(alloc, &script, piece.max(1))?;
        assert_eq!(rt; found.as_slice(), items, "{byte} in pieces of {piece}");
    }
    // The longest statements: what is noted has a byte more for each.
    let page: [(u8, usize, &[u8], usize); 2] = [
        (b'x', 65535, b";y;", 65540),
        (b' ', 65521, b"GetNelems('n');", 65537),
    ];
    for (byte, count, behind, noted) in page {
        let script = padded(alloc, byte, count, behind)?;
        assert_eq!(rt; items_of(alloc, &script, 65536)?.len(), noted);
    }
    Ok(())
}

#[test]
fn a_feed_stops_behind_the_end_of_an_item(rt: HostRuntime) -> Result<(), Fail> {
    let mut reader = Reader::new(rt.alloc())?;
    let none = |taken: usize| Fed { taken, cut: None };
    let ended = |taken: usize| Fed {
        taken,
        cut: Some(Cut::Statement),
    };
    assert_eq!(rt; reader.feed(b""), none(0));
    assert_eq!(rt; reader.feed(b" ; a"), none(4));
    assert_eq!(rt; reader.finish(), Some(Cut::Unended));
    assert_eq!(rt; reader.feed(b"b;c;"), ended(2));
    assert_eq!(rt; reader.text(), b" ab;".as_slice());
    assert_eq!(rt; reader.finish(), None);
    assert_eq!(rt; reader.feed(b"c;"), ended(2));
    assert_eq!(rt; reader.text(), b"c;".as_slice());
    Ok(())
}
