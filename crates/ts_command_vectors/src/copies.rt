// Copies of the commands that statements are.
use crate::commands::{Row, STATEMENTS, is_copied};
use crate::readings::READINGS;
use crate::transactions::WORDS;
use std::alloc::Global;

// Whether a copy of what each statement is read as is the command beside it.
fn are_copied(alloc: Global, rows: &[(&[u8], Row)]) -> bool {
    for (text, wanted) in rows {
        if !matches!(is_copied(alloc, text, *wanted), Ok(true)) {
            return false;
        }
    }
    true
}

#[test]
fn a_copy_is_the_same_command(rt: HostRuntime) {
    assert!(rt; are_copied(rt.alloc(), &STATEMENTS));
    assert!(rt; are_copied(rt.alloc(), &READINGS));
    assert!(rt; are_copied(rt.alloc(), &WORDS));
}
