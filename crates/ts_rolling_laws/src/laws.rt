// What a rolling set has after any puts and other commands.
ghost use Rattle.ts_rolling_laws.specs.Content.{ContentIsKept, SetsStay};

use ts_answer_laws::{a_series_keeps_its_shape, what_is_not_written_stays};
use ts_rolling::{
    control_keys_rise, keys_are_read_exactly, series_are_found_by_keys, sets_share_no_keys,
    window_keys_rise,
};

/// What a command of a rolling set leaves as it was: all but series whose keys are of the set.
pub fn a_set_writes_its_own_series()
    ensures { SetsStay }
{
    keys_are_read_exactly();
    series_are_found_by_keys();
}

/// Whatever puts of a set that was just made and other commands come, its content is the last put of each stamp, of the
/// windows that are kept.
pub fn content_is_what_is_kept()
    ensures { ContentIsKept }
{
    window_keys_rise();
    control_keys_rise();
    keys_are_read_exactly();
    sets_share_no_keys();
    series_are_found_by_keys();
    what_is_not_written_stays();
    a_set_writes_its_own_series();
    a_series_keeps_its_shape();
}
