// Stamps and their texts, names and keys, refusals and faults.
use std::alloc::{AllocError, Global};
use ts_base::{
    Bytes, Key, Name, Refusal, Reply, SeriesFault, Stamp, StoreFault, Trouble, Unit, is_blank,
    month_start,
};

// The units of the stamp that a text names, if it names one.
fn units(text: &[u8]) -> Option<i64> {
    match Stamp::read(text) {
        Some(stamp) => Some(stamp.units()),
        None => None,
    }
}

/// Texts, and the units of the stamps that they name.
static STAMPS: [(&[u8], Option<i64>); 32] = [
    (b"0001-01-01 00:00:00.00000", Some(-6_213_559_680_000_000)),
    (b"9999-12-31 23:59:59.99999", Some(25_340_230_079_999_999)),
    (b"1969-12-31 23:59:59.99999", Some(-1)),
    (b"1970-01-01 00:00:00", Some(0)),
    (b"1970-01-01 00:00:00.5", Some(50_000)),
    (b"1970-01-01 00:00:00.00001", Some(1)),
    (b"1970-01-01 00:01:00.0003", Some(6_000_030)),
    (b"2000-02-29 00:00:00", Some(95_178_240_000_000)),
    (b"2011-01-03 00:00:00", Some(129_401_280_000_000)),
    (b"2011-01-03 13:46:40.12", Some(129_406_240_012_000)),
    (b"1900-02-29 00:00:00", None),
    (b"2011-02-29 00:00:00", None),
    (b"2011-04-31 00:00:00", None),
    (b"2011-01-00 00:00:00", None),
    (b"2011-00-01 00:00:00", None),
    (b"2011-13-01 00:00:00", None),
    (b"0000-01-01 00:00:00", None),
    (b"2011-01-03 24:00:00", None),
    (b"2011-01-03 00:60:00", None),
    (b"2011-01-03 00:00:60", None),
    (b"2011-01-03  00:00:00", None),
    (b"2011-01-03T00:00:00", None),
    (b"2011-01-03 00:00:00.", None),
    (b"2011-01-03 00:00:00.000000", None),
    (b"2011-01-03 00:00:00,5", None),
    (b"2011-01-03 00:00:00 ", None),
    (b" 2011-01-03 00:00:00", None),
    (b"2011-01-03 00:00", None),
    (b"2011-1-03 00:00:00", None),
    (b"2011-01-03 00:00:0x", None),
    (b"-001-01-03 00:00:00", None),
    (b"", None),
];

#[test]
fn texts_name_their_stamps_or_none(rt: HostRuntime) {
    for (text, wanted) in &STAMPS {
        assert!(rt; units(text) == *wanted);
    }
}

// The text of the stamp of so many units, if there is one.
fn text(units: i64) -> Option<[u8; 25]> {
    let stamp = Stamp::of(units)?;
    let mut text = [0; 25];
    stamp.write_into(&mut text);
    Some(text)
}

// Whether this is the text of the stamp of so many units, if there is one.
fn is_written(units: i64, wanted: &[u8]) -> bool {
    match text(units) {
        Some(text) => text.as_slice() == wanted,
        None => wanted.is_empty(),
    }
}

/// Units, and the text of their stamp; none where it is empty.
static WRITTEN: [(i64, &[u8]); 8] = [
    (-6_213_559_680_000_001, b""),
    (-6_213_559_680_000_000, b"0001-01-01 00:00:00.00000"),
    (25_340_230_079_999_999, b"9999-12-31 23:59:59.99999"),
    (25_340_230_080_000_000, b""),
    (-1, b"1969-12-31 23:59:59.99999"),
    (1, b"1970-01-01 00:00:00.00001"),
    (95_178_240_000_000, b"2000-02-29 00:00:00.00000"),
    (129_406_240_012_000, b"2011-01-03 13:46:40.12000"),
];

#[test]
fn stamps_are_written_with_all_their_digits(rt: HostRuntime) {
    for (units, wanted) in &WRITTEN {
        assert!(rt; is_written(*units, wanted));
    }
}

// The stamp some months after that of a text.
fn moved(from: &[u8], months: i64) -> Option<Stamp> {
    let first = Stamp::read(from)?;
    if first.day_of_month() > 28 {
        return None;
    }
    month_start(first, months)
}

/// A stamp, how many months it moves, and where to. An empty text stands where the years end.
static MONTHS: [(&[u8], i64, &[u8]); 13] = [
    (b"2011-01-28 13:46:40.12", 0, b"2011-01-28 13:46:40.12"),
    (b"2011-01-28 13:46:40.12", 1, b"2011-02-28 13:46:40.12"),
    (b"2011-01-28 13:46:40.12", -1, b"2010-12-28 13:46:40.12"),
    (b"2011-12-01 00:00:00", 1, b"2012-01-01 00:00:00"),
    (
        b"2011-03-15 23:59:59.99999",
        14,
        b"2012-05-15 23:59:59.99999",
    ),
    (b"2011-03-15 00:00:00", -27, b"2008-12-15 00:00:00"),
    (b"0001-01-28 00:00:00", 119_987, b"9999-12-28 00:00:00"),
    (b"9999-12-28 00:00:00", -119_987, b"0001-01-28 00:00:00"),
    (b"9999-12-01 00:00:00", 1, b""),
    (b"0001-01-28 23:59:59.99999", -1, b""),
    (b"0001-01-01 00:00:00", 119_988, b""),
    (b"2011-01-01 00:00:00", i64::MAX, b""),
    (b"2011-01-01 00:00:00", i64::MIN, b""),
];

#[test]
fn months_move_the_month_and_nothing_else(rt: HostRuntime) {
    for (from, months, to) in &MONTHS {
        assert!(rt; moved(from, *months) == Stamp::read(to));
    }
}

/// Refusals, with their numbers and names.
static REFUSALS: [(Refusal, u8, &[u8]); 34] = [
    (Refusal::Syntax { place: 7 }, 1, b"Syntax"),
    (Refusal::TooLong, 2, b"TooLong"),
    (Refusal::Unended, 3, b"Unended"),
    (Refusal::UnknownName, 10, b"UnknownName"),
    (Refusal::NameTaken, 11, b"NameTaken"),
    (Refusal::BadRowType { column: 1 }, 12, b"BadRowType"),
    (Refusal::BadPattern { place: 0 }, 13, b"BadPattern"),
    (Refusal::BadCalendar { place: 0 }, 14, b"BadCalendar"),
    (Refusal::AllOff, 15, b"AllOff"),
    (Refusal::UnitMismatch, 16, b"UnitMismatch"),
    (TOO_LONG, 17, b"PatternTooLong"),
    (Refusal::NotAligned, 18, b"NotAligned"),
    (Refusal::OffStamp, 20, b"OffStamp"),
    (Refusal::BeforeOrigin, 21, b"BeforeOrigin"),
    (Refusal::PastEnd, 22, b"PastEnd"),
    (Refusal::Duplicate, 23, b"Duplicate"),
    (Refusal::Missing, 24, b"Missing"),
    (Refusal::SecondFull, 25, b"SecondFull"),
    (Refusal::RowMismatch { column: 2 }, 26, b"RowMismatch"),
    (FULL, 30, b"ContainerFull"),
    (Refusal::VolumeFull { sum: 9, pages: 8 }, 31, b"VolumeFull"),
    (Refusal::InUse, 32, b"InUse"),
    (Refusal::TooMany, 33, b"TooMany"),
    (Refusal::TooLarge { rows: 1_000_001 }, 34, b"TooLarge"),
    (Refusal::NotRegular, 40, b"NotRegular"),
    (Refusal::BadExpression { place: 3 }, 41, b"BadExpression"),
    (Refusal::UnknownColumn, 42, b"UnknownColumn"),
    (Refusal::Overflow, 43, b"Overflow"),
    (Refusal::OldFormat, 44, b"OldFormat"),
    (Refusal::WindowGone { newest: u64::MAX }, 45, b"WindowGone"),
    (Refusal::NotOpen, 50, b"NotOpen"),
    (Refusal::AlreadyOpen, 51, b"AlreadyOpen"),
    (Refusal::TransactionFull, 52, b"TransactionFull"),
    (Refusal::Conflict { commit: 1 }, 53, b"Conflict"),
];

#[test]
fn refusals_have_their_numbers_and_names(rt: HostRuntime) {
    for (refusal, code, name) in &REFUSALS {
        assert!(rt; refusal.code() == *code && refusal.name() == *name);
    }
}

const TOO_LONG: Refusal = Refusal::PatternTooLong {
    length: 527_041,
    runs: 0,
};

const FULL: Refusal = Refusal::ContainerFull {
    charge: 2,
    quota: 1,
};

// Whether a text is a name's, which is then copied whole.
fn is_name(alloc: Global, text: &[u8]) -> Result<bool, AllocError> {
    match Name::read(alloc, text)? {
        Some(name) => Ok(name.copy()?.as_slice() == text),
        None => Ok(false),
    }
}

/// Texts, and whether they are taken.
static NAMES: [(&[u8], bool); 12] = [
    (b"a", true),
    (b"_", true),
    (b"Z9_", true),
    (b"name_with_32_bytes_0123456789abc", true),
    (b"__0", true),
    (b"", false),
    (b"9a", false),
    (b"a b", false),
    (b"a-b", false),
    (b"\xe9", false),
    (b"name_with_33_bytes_0123456789abcd", false),
    (b"a\0", false),
];

#[test]
fn names_are_words_of_1_to_32_bytes(rt: HostRuntime) {
    for (text, wanted) in &NAMES {
        assert!(rt; matches!(is_name(rt.alloc(), text), Ok(found) if found == *wanted));
    }
}

// Whether a text is a key's, which is then copied whole.
fn is_key(alloc: Global, text: &[u8]) -> Result<bool, AllocError> {
    match Key::read(alloc, text)? {
        Some(key) => Ok(key.copy()?.as_slice() == text),
        None => Ok(false),
    }
}

/// Texts, and whether they are taken.
static KEYS: [(&[u8], bool); 8] = [
    (b" ", true),
    (b"it's", true),
    (b"\x80~\xff", true),
    (&[b'k'; 64], true),
    (&[b'k'; 65], false),
    (b"", false),
    (b"a\x1f", false),
    (b"\x7f", false),
];

#[test]
fn keys_are_1_to_64_bytes_of_a_text(rt: HostRuntime) {
    for (text, wanted) in &KEYS {
        assert!(rt; matches!(is_key(rt.alloc(), text), Ok(found) if found == *wanted));
    }
}

#[test]
fn four_bytes_are_blank(rt: HostRuntime) {
    for byte in b" \t\r\n" {
        assert!(rt; is_blank(*byte));
    }
    for byte in b"\x0b\x00_;" {
        assert!(rt; !is_blank(*byte));
    }
}

// Whether bytes grow at their end, and are cut there.
fn bytes_grow(alloc: Global) -> Result<bool, AllocError> {
    let mut bytes = Bytes::from_slice(alloc, b"xy")?;
    bytes.clear();
    bytes.push(b'a')?;
    bytes.extend_from_slice(b"bcd")?;
    bytes.truncate(3);
    Ok(bytes.copy()?.as_slice() == b"abc".as_slice())
}

// The same of a reply.
fn replies_grow(alloc: Global) -> Result<bool, AllocError> {
    let mut reply = Reply::new(alloc);
    reply.push(b'x')?;
    reply.clear();
    reply.extend_from_slice(b"ok?")?;
    reply.truncate(2);
    reply.push(b'\n')?;
    Ok(reply.as_slice() == b"ok\n".as_slice())
}

#[test]
fn bytes_and_replies_grow_at_their_end(rt: HostRuntime) {
    assert!(rt; matches!(bytes_grow(rt.alloc()), Ok(true)));
    assert!(rt; matches!(replies_grow(rt.alloc()), Ok(true)));
    assert!(rt; Bytes::new(rt.alloc()).as_slice().is_empty());
}

#[test]
fn a_fault_of_the_store_is_a_fault_of_the_series(rt: HostRuntime) {
    assert!(rt; matches!(SeriesFault::from(StoreFault::Failed), SeriesFault::Failed));
    let memory = StoreFault::from(AllocError);
    assert!(rt; matches!(SeriesFault::from(memory), SeriesFault::Memory(_)));
    assert!(rt; matches!(SeriesFault::from(AllocError), SeriesFault::Memory(_)));
    assert!(rt; matches!(Trouble::from(AllocError), Trouble::Memory(_)));
}

#[test]
fn the_types_may_go_to_other_threads() {
    goes_to_threads::<Stamp>();
    goes_to_threads::<Name>();
    goes_to_threads::<Key>();
    goes_to_threads::<Bytes>();
    goes_to_threads::<Reply>();
    goes_to_threads::<Unit>();
    goes_to_threads::<Refusal>();
    goes_to_threads::<Trouble>();
    goes_to_threads::<StoreFault>();
    goes_to_threads::<SeriesFault>();
}

fn goes_to_threads<T: Send + Sync>() {}
