// Sources and their sections, and the picks of a seed.
use std::alloc::{AllocError, Global};
use ts_multi::{
    a_conflict_is_the_first, an_order_is_a_shuffle, more_picks_change_nothing, picks_of,
    sections_are_the_source, split_sessions,
};

/// Sources, and their sections.
static SOURCES: [(&[u8], &[&[u8]]); 10] = [
    (b"", &[b""]),
    (b"a;", &[b"a;"]),
    (b"a;\n--session\nb", &[b"a;\n", b"b"]),
    (b"--session", &[b"", b""]),
    (b"--session\n", &[b"", b""]),
    (b"--session\n--session\nx;\n", &[b"", b"", b"x;\n"]),
    (b"a\r\n--session\r\nb", &[b"a\r\n--session\r\nb"]),
    (b" --session\n-session\n", &[b" --session\n-session\n"]),
    (b"--sessions\n--session \n", &[b"--sessions\n--session \n"]),
    (b"I('x\n--session\n')", &[b"I('x\n", b"')"]),
];

// Whether the source has these sections.
fn has_sections(alloc: Global, source: &[u8], wanted: &[&[u8]]) -> Result<bool, AllocError> {
    let Some(found) = split_sessions(alloc, source)? else {
        return Ok(false);
    };
    if found.len() != wanted.len() {
        return Ok(false);
    }
    for (section, text) in found.iter().zip(wanted) {
        if section.as_slice() != *text {
            return Ok(false);
        }
    }
    Ok(true)
}

#[test]
fn marked_lines_part_a_source(rt: HostRuntime) -> Result<(), AllocError> {
    for (source, wanted) in &SOURCES {
        assert!(rt; has_sections(rt.alloc(), source, wanted)?);
    }
    sections_are_the_source();
    Ok(())
}

// How many sections so many marked lines make; 0 where there are too many.
fn sections_of_marks(alloc: Global, marks: usize) -> Result<usize, AllocError> {
    let mut source = Vec::new(alloc);
    for _ in 0..marks {
        source.extend_from_slice(b"--session\n")?;
    }
    Ok(match split_sessions(alloc, source.as_slice())? {
        Some(found) => found.len(),
        None => 0,
    })
}

#[test]
fn seventeen_sections_are_too_many(rt: HostRuntime) -> Result<(), AllocError> {
    assert_eq!(rt; sections_of_marks(rt.alloc(), 15)?, 16);
    assert_eq!(rt; sections_of_marks(rt.alloc(), 16)?, 0);
    Ok(())
}

#[test]
fn picks_are_drawn_from_a_seed(rt: HostRuntime) -> Result<(), AllocError> {
    let picks = picks_of(rt.alloc(), 1, 6)?;
    let wanted = [1_103_527, 377_401, 662_824, 1_147_902, 2_035_015, 368_800];
    assert!(rt; picks.as_slice() == wanted.as_slice());
    an_order_is_a_shuffle::<u8>();
    more_picks_change_nothing::<u8>();
    a_conflict_is_the_first();
    Ok(())
}
