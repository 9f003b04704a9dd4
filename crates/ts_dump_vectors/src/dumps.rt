// What is said of worked stores.
use crate::stores::{dumped, store};
use std::alloc::Global;
use std::test::Fail;
use std::thread::Threads;
use ts_dump::{Ended, Part, Wish};

/// Quotes in texts and in a key, 28 digits, NULL, hidden elements, a calendar with the pattern inside and one by its
/// name; in another order than a dump has it.
const MADE: &[u8] =
    b"CreateRowType(note, t datetime, words varchar(40), size decimal(28,9), small smallint);\
    CreatePattern(workday, '{1 off,5 on,1 off},day');\
    CreateCalendar(named, 'startdate(2011-01-02 00:00:00), pattstart(2011-01-02 00:00:00), pattname(workday)');\
    CreateCalendar(inside, 'startdate(2011-01-01 00:00:00), pattstart(2011-01-01 00:00:00), pattern({1 on},hour)');\
    TSContainerCreate(notes, note, 8);\
    TSCreateIrr('it''s', notes);\
    TSCreate('days', named, '2011-01-03 00:00:00', notes);\
    InsElem('it''s','2011-01-01 00:00:00.00002','',0.000000001,-32767);\
    HideElem('it''s','2011-01-01 00:00:00.00002');\
    InsElem('it''s','2011-01-01 00:00:00.00001','said ''no'', twice',-1234567890123456789.012345678,null);\
    InsElem('days','2011-01-05 00:00:00',';',9999999999999999999.999999999,32767);\
    InsElem('days','2011-01-03 00:00:00',null,null,null);\
    HideElem('days','2011-01-03 00:00:00');";

const SAID: &[u8] =
    b"CreateRowType(note, t datetime, words varchar(40), size decimal(28,9), small smallint);\n\
CreatePattern(workday, '{1 off,5 on,1 off},day');\n\
CreateCalendar(inside, 'startdate(2011-01-01 00:00:00.00000), pattstart(2011-01-01 00:00:00.00000), pattern({1 on},hour)');\n\
CreateCalendar(named, 'startdate(2011-01-02 00:00:00.00000), pattstart(2011-01-02 00:00:00.00000), pattname(workday)');\n\
TSContainerCreate(notes, note, 8);\n\
TSCreate('days', named, '2011-01-03 00:00:00.00000', notes);\n\
TSCreateIrr('it''s', notes);\n\
InsElem('days', '2011-01-03 00:00:00.00000',null,null,null);\n\
HideElem('days', '2011-01-03 00:00:00.00000');\n\
InsElem('days', '2011-01-05 00:00:00.00000',';',9999999999999999999.999999999,32767);\n\
InsElem('it''s', '2011-01-01 00:00:00.00001','said ''no'', twice',-1234567890123456789.012345678,null);\n\
InsElem('it''s', '2011-01-01 00:00:00.00002','',0.000000001,-32767);\n\
HideElem('it''s', '2011-01-01 00:00:00.00002');\n";

/// So many bytes of it are the definitions.
const DEFINED: usize = 507;

/// A regular series with what it stands on.
const DAYS: &[u8] =
    b"CreateRowType(note, t datetime, words varchar(40), size decimal(28,9), small smallint);\n\
CreatePattern(workday, '{1 off,5 on,1 off},day');\n\
CreateCalendar(named, 'startdate(2011-01-02 00:00:00.00000), pattstart(2011-01-02 00:00:00.00000), pattname(workday)');\n\
TSContainerCreate(notes, note, 8);\n\
TSCreate('days', named, '2011-01-03 00:00:00.00000', notes);\n\
InsElem('days', '2011-01-03 00:00:00.00000',null,null,null);\n\
HideElem('days', '2011-01-03 00:00:00.00000');\n\
InsElem('days', '2011-01-05 00:00:00.00000',';',9999999999999999999.999999999,32767);\n";

/// An irregular one, in a transaction.
const ITS: &[u8] = b"Begin;\n\
CreateRowType(note, t datetime, words varchar(40), size decimal(28,9), small smallint);\n\
TSContainerCreate(notes, note, 8);\n\
TSCreateIrr('it''s', notes);\n\
InsElem('it''s', '2011-01-01 00:00:00.00001','said ''no'', twice',-1234567890123456789.012345678,null);\n\
InsElem('it''s', '2011-01-01 00:00:00.00002','',0.000000001,-32767);\n\
HideElem('it''s', '2011-01-01 00:00:00.00002');\n\
Commit;\n";

/// 33 statements, of which the first 32 stand in a transaction.
const GROUPED: &[u8] = b"Begin;\n\
CreateRowType(n, t datetime, v smallint);\n\
TSContainerCreate(c, n, 1);\n\
TSCreateIrr('a', c);\n\
InsElem('a', '2011-01-01 00:00:00.00001',1);\n\
InsElem('a', '2011-01-01 00:00:00.00002',2);\n\
InsElem('a', '2011-01-01 00:00:00.00003',3);\n\
InsElem('a', '2011-01-01 00:00:00.00004',4);\n\
InsElem('a', '2011-01-01 00:00:00.00005',5);\n\
InsElem('a', '2011-01-01 00:00:00.00006',6);\n\
InsElem('a', '2011-01-01 00:00:00.00007',7);\n\
InsElem('a', '2011-01-01 00:00:00.00008',8);\n\
InsElem('a', '2011-01-01 00:00:00.00009',9);\n\
InsElem('a', '2011-01-01 00:00:00.00010',10);\n\
InsElem('a', '2011-01-01 00:00:00.00011',11);\n\
InsElem('a', '2011-01-01 00:00:00.00012',12);\n\
InsElem('a', '2011-01-01 00:00:00.00013',13);\n\
InsElem('a', '2011-01-01 00:00:00.00014',14);\n\
InsElem('a', '2011-01-01 00:00:00.00015',15);\n\
InsElem('a', '2011-01-01 00:00:00.00016',16);\n\
InsElem('a', '2011-01-01 00:00:00.00017',17);\n\
InsElem('a', '2011-01-01 00:00:00.00018',18);\n\
InsElem('a', '2011-01-01 00:00:00.00019',19);\n\
InsElem('a', '2011-01-01 00:00:00.00020',20);\n\
InsElem('a', '2011-01-01 00:00:00.00021',21);\n\
InsElem('a', '2011-01-01 00:00:00.00022',22);\n\
InsElem('a', '2011-01-01 00:00:00.00023',23);\n\
InsElem('a', '2011-01-01 00:00:00.00024',24);\n\
InsElem('a', '2011-01-01 00:00:00.00025',25);\n\
InsElem('a', '2011-01-01 00:00:00.00026',26);\n\
InsElem('a', '2011-01-01 00:00:00.00027',27);\n\
InsElem('a', '2011-01-01 00:00:00.00028',28);\n\
InsElem('a', '2011-01-01 00:00:00.00029',29);\n\
Commit;\n\
Begin;\n\
InsElem('a', '2011-01-01 00:00:00.00030',30);\n\
Commit;\n";

// What is wished, each statement by itself.
fn only(part: Part<'_>) -> Wish<'_> {
    Wish {
        part,
        in_transactions: false,
    }
}

// The same in transactions.
fn grouped(part: Part<'_>) -> Wish<'_> {
    Wish {
        part,
        in_transactions: true,
    }
}

// Whether a dump of a store that a script makes says this whole.
fn says(
    rt: &(impl Threads + Sync),
    alloc: Global,
    wish: Wish<'_>,
    script: &[u8],
    wanted: &[u8],
) -> Result<bool, Fail> {
    let bytes = store(rt, alloc, script)?;
    let (ended, said) = dumped(alloc, wish, &bytes, None)?;
    Ok(ended == Ended::Whole && said.as_slice() == wanted)
}

#[test]
fn a_store_comes_out_as_it_is_written(rt: HostRuntime) -> Result<(), Fail> {
    assert!(rt; says(&rt, rt.alloc(), only(Part::All), MADE, SAID)?);
    assert!(rt; says(&rt, rt.alloc(), only(Part::All), b"", b"")?);
    Ok(())
}

#[test]
fn what_was_said_makes_the_same_again(rt: HostRuntime) -> Result<(), Fail> {
    assert!(rt; says(&rt, rt.alloc(), only(Part::All), SAID, SAID)?);
    Ok(())
}

// Whether a failing call is told, and a front of the script was said by then.
fn is_told(alloc: Global, bytes: &[u8], call: u64) -> Result<bool, Fail> {
    let (ended, said) = dumped(alloc, only(Part::All), bytes, Some(call))?;
    let is_cut = ended == Ended::VolumeFailed || ended == Ended::OutputFailed;
    Ok(is_cut && SAID.starts_with(&said))
}

#[test]
fn definitions_come_out_alone(rt: HostRuntime) -> Result<(), Fail> {
    assert!(rt;
        says(
            &rt,
            rt.alloc(),
            only(Part::DefinitionsAlone),
            MADE,
            &SAID[..DEFINED]
        )?
    );
    Ok(())
}

#[test]
fn a_series_comes_out_with_what_it_stands_on(rt: HostRuntime) -> Result<(), Fail> {
    assert!(rt; says(&rt, rt.alloc(), only(Part::Series(b"days")), MADE, DAYS)?);
    assert!(rt; says(&rt, rt.alloc(), grouped(Part::Series(b"it's")), MADE, ITS)?);
    Ok(())
}

#[test]
fn a_series_that_is_not_there_is_told(rt: HostRuntime) -> Result<(), Fail> {
    let bytes = store(&rt, rt.alloc(), MADE)?;
    let (ended, said) = dumped(rt.alloc(), grouped(Part::Series(b"its")), &bytes, None)?;
    assert!(rt; ended == Ended::NoSeries);
    assert!(rt; ended.status() == 1);
    assert!(rt; said.is_empty());
    Ok(())
}

#[test]
fn statements_stand_in_transactions_of_32(rt: HostRuntime) -> Result<(), Fail> {
    assert!(rt; says(&rt, rt.alloc(), grouped(Part::All), GROUPED, GROUPED)?);
    assert!(rt; says(&rt, rt.alloc(), grouped(Part::All), b"", b"")?);
    Ok(())
}

#[test]
fn a_call_that_fails_is_told(rt: HostRuntime) -> Result<(), Fail> {
    let bytes = store(&rt, rt.alloc(), MADE)?;
    for call in [0, 1, 100, 680] {
        assert!(rt; is_told(rt.alloc(), &bytes, call)?);
    }
    Ok(())
}

#[test]
fn what_is_no_store_is_bad(rt: HostRuntime) -> Result<(), Fail> {
    let (ended, said) = dumped(rt.alloc(), only(Part::All), b"no store", None)?;
    assert!(rt; ended == Ended::Bad { page: 0 });
    assert!(rt; said.is_empty());
    Ok(())
}
