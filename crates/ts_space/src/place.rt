// The places of one series.
ghost use Rattle.std.specs.Prelude.{◌≡◌, ℕ, ◌+◌, ◌%◌, ◌^◌, ◌<◌, ◌≤◌, None, IfOk, IfErr, length, slice_get, vec_len};
ghost use Rattle.std.specs.Prelude.{vec_capacity};
ghost use Rattle.ts_space.specs.Place.{IsRising, place_at, rank_of, search_of, put_place, drop_place, count_of};
ghost use Rattle.ts_space.specs.Place.{kept_count};

/// A page of a series.
#[derive(Clone, Copy, Debug, PartialEq, Eq)]
pub struct Place {
    /// Where the page begins: the offset of its first cell, or the stamp of its first element.
    pub at: i64,
    /// The number of the page.
    pub page: u32,
    /// How many elements the page holds.
    pub count: u16,
}

/// The index of the place that begins at `at`; where none does, that of the first place above.
pub fn search(places: &[Place], at: i64) -> Result<usize, usize>
    requires { IsRising places.now }
    ensures ok { result ≡ search_of at places.now }
    ensures place { IfOk result (λ index. slice_get places.now index ≡ place_at at places.now) }
    ensures within { IfErr result (λ index. index ≤ length places.now) }
{
    let rank = rank(places, at);
    if rank < places.len() && places[rank].at == at {
        Ok(rank)
    } else {
        Err(rank)
    }
}

// How many of the places begin below.
fn rank(places: &[Place], at: i64) -> usize
    requires { IsRising places.now }
    ensures ok { result ≡ rank_of at places.now }
    ensures within { result ≤ length places.now }
{
    let mut low = 0;
    let mut high = places.len();
    while low < high {
        let middle = low + (high - low) / 2;
        if places[middle].at < at {
            low = middle + 1;
        } else {
            high = middle;
        }
    }
    low
}

/// How many elements the pages of the places hold together.
pub fn count_of(places: &[Place]) -> u64
    requires { count_of places.now < 2 ^ 64 }
    ensures { result ≡ count_of places.now }
{
    counted(places)
}

// The same of any places, as a counter of 64 bits has it.
pub(crate) fn counted(places: &[Place]) -> u64
    ensures { result ≡ kept_count places.now }
{
    let mut count = 0_u64;
    for place in places {
        count = count.wrapping_add(u64::from(place.count));
    }
    count
}

// Puts a place, in place of one that begins there. Takes how many elements there are, and gives how many there are
// then.
pub(crate) fn put(list: &mut Vec<Place>, place: Place, count: u64) -> u64
    requires rising { IsRising list.old.items }
    requires room { place_at place.at list.old.items ≡ None → vec_len list.old < vec_capacity list.old }
    requires count { count ≡ kept_count list.old.items }
    ensures ok { list.new.items ≡ put_place place list.old.items }
    ensures memory { vec_capacity list.new ≡ vec_capacity list.old }
    ensures count { result ≡ kept_count list.new.items }
{
    match search(list, place.at) {
        Ok(index) => {
            let gone = list[index].count;
            list[index] = place;
            exchanged(count, u64::from(gone), u64::from(place.count))
        }
        Err(index) => {
            let Ok(()) = list.insert(index, place) else {
                unreachable!()
            };
            exchanged(count, 0, u64::from(place.count))
        }
    }
}

// Drops the place that begins there. Takes how many elements there are, and gives how many there are then.
pub(crate) fn drop_at(list: &mut Vec<Place>, at: i64, count: u64) -> u64
    requires rising { IsRising list.old.items }
    requires count { count ≡ kept_count list.old.items }
    ensures ok { list.new.items ≡ drop_place at list.old.items }
    ensures memory { vec_capacity list.new ≡ vec_capacity list.old }
    ensures count { result ≡ kept_count list.new.items }
{
    match search(list, at) {
        Ok(index) => {
            let gone = list.remove(index);
            exchanged(count, u64::from(gone.count), 0)
        }
        Err(_) => count,
    }
}

// A counter once some elements went and others came.
pub(crate) fn exchanged(count: u64, gone: u64, come: u64) -> u64
    ensures { (old new went came : ℕ) → new + went ≡ old + came → count ≡ old % 2 ^ 64 → gone ≡ went % 2 ^ 64
        → come ≡ came % 2 ^ 64
        → result ≡ new % 2 ^ 64 }
{
    count.wrapping_sub(gone).wrapping_add(come)
}
