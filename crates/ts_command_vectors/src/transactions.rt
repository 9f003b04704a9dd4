// The words that open and end transactions.
use crate::commands::{Rest, Row, is_read, read};
use std::alloc::Global;
use ts_command::{Boundary, Command};

/// Statements of one word, and the commands that they are.
pub(crate) static WORDS: [(&[u8], Row); 3] = [
    (b"Begin;", ("Begin", b"", b"", Rest::Nothing)),
    (b"\t Commit\r\n;", ("Commit", b"", b"", Rest::Nothing)),
    (b"Rollback ;", ("Rollback", b"", b"", Rest::Nothing)),
];

#[test]
fn a_transaction_is_opened_and_ended_by_a_word(rt: HostRuntime) {
    for (text, wanted) in &WORDS {
        assert!(rt; is_read(rt.alloc(), text, *wanted));
    }
}

// What the first of these commands does to a transaction, and whether it writes.
fn boundary_of(commands: &[Command]) -> (Option<Boundary>, bool) {
    match commands.first() {
        Some(command) => (command.boundary(), command.is_writing()),
        None => (None, true),
    }
}

fn boundary(alloc: Global, text: &[u8]) -> (Option<Boundary>, bool) {
    match read(alloc, text) {
        Ok(commands) => boundary_of(commands.as_slice()),
        Err(_) => (None, true),
    }
}

#[test]
fn three_words_are_boundaries_and_none_writes(rt: HostRuntime) {
    assert!(rt;
        matches!(
            boundary(rt.alloc(), b"Begin;"),
            (Some(Boundary::Opens), false)
        )
    );
    assert!(rt;
        matches!(
            boundary(rt.alloc(), b"Commit;"),
            (Some(Boundary::Commits), false)
        )
    );
    assert!(rt;
        matches!(
            boundary(rt.alloc(), b"Rollback;"),
            (Some(Boundary::RollsBack), false)
        )
    );
}
