// A Lag by more starts than there are.
use crate::laid::{JANUARY_3, JANUARY_4, JANUARY_5, Table, WORK, made};
use std::alloc::Global;
use ts_combine::lag;

/// Three days after another.
const ROW: Table = Table {
    laid: Some(WORK),
    stamps: &[JANUARY_3, JANUARY_4, JANUARY_5],
};

// How many rows the series has that lags by so many starts.
fn lagged(alloc: Global, by: i64) -> Option<usize> {
    let kept = made(alloc, &ROW)?;
    let shape = kept.shape()?;
    let rows = lag(alloc, &kept.side(&shape), by).ok()?;
    Some(rows.len())
}

#[test]
fn a_series_lags_by_no_more_starts_than_it_has(rt: HostRuntime) {
    for by in &[i64::MAX, i64::MIN] {
        assert!(rt; lagged(rt.alloc(), *by) == Some(0), "by {by}");
    }
}
