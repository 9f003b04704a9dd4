// A real file, standard output and standard input.
use crate::steps::{Step, count_done, two_at};
use std::fs::{self, OpenOptions};
use std::test::Fail;
use ts_disk::{Failed, Source, Volume};
use ts_file::{FileSite, StdSource};

#[test]
fn a_file_holds_what_is_written(rt: HostRuntime) -> Result<(), Fail> {
    let steps = [
        Step::Resize(8192),
        Step::Write(5000, b"page"),
        Step::Sync,
        Step::Write(0, b"head"),
        Step::Sync,
        Step::Say(b"said\n"),
    ];
    let file = OpenOptions::new()
        .read(true)
        .write(true)
        .create(true)
        .truncate(true)
        .open(&rt, "a_file_holds_what_is_written.ts")?;
    let mut site = FileSite::new(&rt, file, 0, u64::MAX);
    assert!(rt; count_done(&mut site, &steps) == 6);
    for (at, wanted) in [
        (4999, *b"\0p"),
        (5002, *b"ge"),
        (5004, *b"\0\0"),
        (2, *b"ad"),
    ] {
        assert!(rt; two_at(&mut site, at) == Some(wanted));
    }
    assert!(rt; site.len() == 8192 && site.faults() == 0);
    let left = fs::read(&rt, "a_file_holds_what_is_written.ts")?;
    assert!(rt; left.len() == 8192);
    fs::remove_file(&rt, "a_file_holds_what_is_written.ts")?;
    Ok(())
}

// The file is open for reading alone, so no write reaches it.
#[test]
fn a_write_that_is_not_taken_fails(rt: HostRuntime) -> Result<(), Fail> {
    fs::write(&rt, "a_write_that_is_not_taken_fails.ts", b"1234")?;
    let file = OpenOptions::new()
        .read(true)
        .open(&rt, "a_write_that_is_not_taken_fails.ts")?;
    let mut site = FileSite::new(&rt, file, 8, u64::MAX);
    assert!(rt; count_done(&mut site, &[Step::Write(0, b"5")]) == 0);
    // The file ends before the length that was told.
    let mut beyond = [0u8; 8];
    assert!(rt; site.len() == 8 && site.read_at(0, &mut beyond) == Err(Failed));
    assert!(rt; site.faults() == 2);
    fs::remove_file(&rt, "a_write_that_is_not_taken_fails.ts")?;
    Ok(())
}

#[test]
fn standard_input_ends(rt: HostRuntime) {
    let mut source = StdSource::new(&rt);
    let mut into = [0u8; 4096];
    for _ in 0..1_000_000u32 {
        if source.pull(&mut into) == Ok(0) {
            return;
        }
    }
    assert!(rt; false, "standard input has no end");
}
