use ts_arguments::{Columns, Literals};
use ts_base::{Bytes, Key, Name, Stamp};

/// What a statement asks for: a routine and its arguments, in their order.
#[derive(Debug, Drop)]
pub enum Command {
    CreateRowType {
        name: Name,
        stamp: Name,
        columns: Columns,
    },
    DropRowType {
        name: Name,
    },
    CreatePattern {
        name: Name,
        text: Bytes,
    },
    NotOp {
        name: Name,
        pattern: Name,
    },
    AndPatterns {
        name: Name,
        first: Name,
        second: Name,
    },
    OrPatterns {
        name: Name,
        first: Name,
        second: Name,
    },
    AndCalendars {
        name: Name,
        first: Name,
        second: Name,
    },
    OrCalendars {
        name: Name,
        first: Name,
        second: Name,
    },
    ShowPattern {
        name: Name,
    },
    DropPattern {
        name: Name,
    },
    CreateCalendar {
        name: Name,
        text: Bytes,
    },
    ShowCalendar {
        name: Name,
    },
    DropCalendar {
        name: Name,
    },
    TSContainerCreate {
        name: Name,
        row_type: Name,
        quota: i64,
    },
    TSContainerDestroy {
        name: Name,
    },
    TSContainerUsage {
        name: Name,
    },
    TSCreate {
        key: Key,
        calendar: Name,
        origin: Stamp,
        container: Name,
    },
    TSCreateIrr {
        key: Key,
        container: Name,
    },
    DropSeries {
        key: Key,
    },
    ListSeries {
        container: Name,
    },
    PutElem {
        key: Key,
        stamp: Stamp,
        values: Literals,
    },
    PutElemNoDups {
        key: Key,
        stamp: Stamp,
        values: Literals,
    },
    InsElem {
        key: Key,
        stamp: Stamp,
        values: Literals,
    },
    UpdElem {
        key: Key,
        stamp: Stamp,
        values: Literals,
    },
    DelElem {
        key: Key,
        stamp: Stamp,
    },
    DelClip {
        key: Key,
        from: Stamp,
        to: Stamp,
    },
    CalIndex {
        calendar: Name,
        from: Stamp,
        to: Stamp,
    },
    CalStamp {
        calendar: Name,
        after: Stamp,
        count: i64,
    },
    CalRange {
        calendar: Name,
        from: Stamp,
        to: Stamp,
    },
    HideElem {
        key: Key,
        stamp: Stamp,
    },
    RevealElem {
        key: Key,
        stamp: Stamp,
    },
    GetElem {
        key: Key,
        stamp: Stamp,
    },
    GetLastElem {
        key: Key,
    },
    GetNelems {
        key: Key,
    },
    GetFirstElem {
        key: Key,
    },
    GetNthElem {
        key: Key,
        index: i64,
    },
    Clip {
        key: Key,
        from: Stamp,
        to: Stamp,
    },
    ClipCount {
        key: Key,
        stamp: Stamp,
        count: i64,
    },
    ClipGetCount {
        key: Key,
        from: Stamp,
        to: Stamp,
    },
    Union {
        first: Key,
        second: Key,
        from: Stamp,
        to: Stamp,
    },
    Intersect {
        first: Key,
        second: Key,
        from: Stamp,
        to: Stamp,
    },
    Lag {
        key: Key,
        by: i64,
    },
    AggregateBy {
        text: Bytes,
        calendar: Name,
        key: Key,
        from: Stamp,
        to: Stamp,
    },
    AggregateRange {
        text: Bytes,
        key: Key,
        from: Stamp,
        to: Stamp,
    },
    AggregateAll {
        text: Bytes,
        container: Name,
        from: Stamp,
        to: Stamp,
    },
    TSRunningSum {
        text: Bytes,
        key: Key,
        span: i64,
        from: Stamp,
        to: Stamp,
    },
    TSRunningAvg {
        text: Bytes,
        key: Key,
        span: i64,
        from: Stamp,
        to: Stamp,
    },
    Apply {
        text: Bytes,
        key: Key,
        from: Stamp,
        to: Stamp,
    },
    /// A rolling set is made, which keeps the last windows of a calendar, so many.
    RollingCreate {
        set: Key,
        calendar: Name,
        origin: Stamp,
        container: Name,
        kept: i64,
    },
    RollingPut {
        set: Key,
        stamp: Stamp,
        values: Literals,
    },
    RollingClip {
        set: Key,
        from: Stamp,
        to: Stamp,
    },
    RollingDrop {
        set: Key,
    },
    Begin,
    Commit,
    Rollback,
}
