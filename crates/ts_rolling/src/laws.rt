// What is said of the keys of all sets, and of their series in any catalogue. Each law is the contract of a function
// without a body.
ghost use Rattle.ts_rolling.specs.SetLaws.{SeriesAreFoundByKeys};
ghost use Rattle.ts_rolling.specs.KeyLaws.{WindowKeysRise, ControlKeysRise, KeysAreReadExactly, SetsShareNoKeys};

/// Window keys of a set rise with their numbers in the order of names.
pub fn window_keys_rise()
    ensures { WindowKeysRise }
{}

/// Control keys of a set rise with the numbers of windows that are kept.
pub fn control_keys_rise()
    ensures { ControlKeysRise }
{}

/// A key is read as a window's or a control's number exactly where it is the key of that number.
pub fn keys_are_read_exactly()
    ensures { KeysAreReadExactly }
{}

/// A key is a window's or a control's of one set at most, and never both.
pub fn sets_share_no_keys()
    ensures { SetsShareNoKeys }
{}

/// The windows of a set stand in the order of their numbers, each once, and so do its controls; the one of a number is
/// the series with its key.
pub fn series_are_found_by_keys()
    ensures { SeriesAreFoundByKeys }
{}
