// A change of the places of a series, which the caller makes in the directory once the pages are committed.
ghost use Rattle.std.specs.Prelude.{◌≡◌, ◌+◌, ◌<◌, ◌≤◌, [], ◌++◌, ◌∷◌, take, drop, length, vec_len, vec_capacity};
ghost use Rattle.ts_space.specs.Place.{kept_count};
ghost use Rattle.ts_space.specs.Moved.{list_of, moved_to};

use crate::place::{Place, counted, exchanged};

/// The places that come: at most two.
#[derive(Clone, Copy, Debug, PartialEq, Eq)]
pub enum Come {
    Nothing,
    One(Place),
    Two(Place, Place),
}

/// Places that stand side by side go, and others come in their stead.
#[derive(Clone, Copy, Debug, PartialEq, Eq)]
pub struct Moved {
    /// The index of the first place that goes.
    pub index: usize,
    /// How many go: as many as there are from the index on, where this is more.
    pub gone: usize,
    pub come: Come,
}

// Makes a change in a list. Takes how many elements there are, and gives how many there are then.
pub(crate) fn exchange(list: &mut Vec<Place>, moved: &Moved, count: u64) -> u64
    requires room { vec_len list.old + 2 ≤ vec_capacity list.old }
    requires count { count ≡ kept_count list.old.items }
    ensures ok { list.new.items ≡ moved_to moved.now list.old.items }
    ensures memory { vec_capacity list.new ≡ vec_capacity list.old }
    ensures longer { vec_len list.new ≤ vec_len list.old + 2 }
    ensures count { result ≡ kept_count list.new.items }
{
    let start = moved.index.min(list.len());
    let end = start + moved.gone.min(list.len() - start);
    let gone = counted(&list[start..end]);
    replace(list, start, end, moved.come);
    exchanged(count, gone, come_count(moved.come))
}

// How many elements the places have that come.
fn come_count(come: Come) -> u64
    ensures { result ≡ kept_count (list_of come) }
{
    match come {
        Come::Nothing => 0,
        Come::One(place) => u64::from(place.count),
        Come::Two(first, second) => u64::from(first.count) + u64::from(second.count),
    }
}

// Puts the places that come in the stead of those from one index to another: all behind them move once.
fn replace(list: &mut Vec<Place>, start: usize, end: usize, come: Come)
    requires order { start ≤ end }
    requires within { end ≤ vec_len list.old }
    requires room { vec_len list.old + 2 ≤ vec_capacity list.old }
    ensures ok { list.new.items ≡ take start list.old.items ++ list_of come ++ drop end list.old.items }
    ensures memory { vec_capacity list.new ≡ vec_capacity list.old }
    ensures longer { vec_len list.new ≤ vec_len list.old + 2 }
{
    match come {
        Come::Nothing => remove_run(list, start, end),
        Come::One(place) => {
            let next = put_over(list, start, end, place);
            remove_run(list, start + 1, next);
        }
        Come::Two(first, second) => {
            let next = put_over(list, start, end, first);
            let after = put_over(list, start + 1, next, second);
            remove_run(list, start + 2, after);
        }
    }
}

// Puts a place over the first of those from one index to another, or between where there are none. Gives where they end
// then.
fn put_over(list: &mut Vec<Place>, start: usize, end: usize, place: Place) -> usize
    requires order { start ≤ end }
    requires within { end ≤ vec_len list.old }
    requires room { vec_len list.old < vec_capacity list.old }
    ensures front { take (start + 1) list.new.items ≡ take start list.old.items ++ place ∷ [] }
    ensures back { drop result list.new.items ≡ drop end list.old.items }
    ensures order { start + 1 ≤ result }
    ensures within { result ≤ vec_len list.new }
    ensures longer { vec_len list.new ≤ vec_len list.old + 1 }
    ensures memory { vec_capacity list.new ≡ vec_capacity list.old }
{
    if start < end {
        list[start] = place;
        return end;
    }
    let Ok(()) = list.insert(start, place) else {
        unreachable!()
    };
    start + 1
}

// Takes out the places from one index to another: all behind them move once.
fn remove_run(list: &mut Vec<Place>, start: usize, end: usize)
    requires order { start ≤ end }
    requires within { end ≤ vec_len list.old }
    ensures ok { list.new.items ≡ take start list.old.items ++ drop end list.old.items }
    ensures memory { vec_capacity list.new ≡ vec_capacity list.old }
    ensures longer { vec_len list.new ≤ vec_len list.old }
{
    let len = list.len();
    list.copy_within(end..len, start);
    list.truncate(len - (end - start));
}
