// The text of the day on which stamps lie.
ghost use Rattle.std.specs.Prelude.{◌≡◌, ◌<◌, ◌∷◌, ◌++◌, [], take, drop, OnOk, OnErr};
ghost use Rattle.ts_base.specs.Moment.{IsStamp, day_of, clock_of, stamp_text};
ghost use Rattle.ts_base.specs.Moment;
ghost use Rattle.ts_say.specs.Day.{day_text, seconds_text, no_fraction, IsMidnight};
ghost use Rattle.ts_row.specs.Row.{Extends};

use crate::pairs::two_digits;
use std::alloc::AllocError;
use ts_base::{Reply, Stamp};

/// The units of a day.
const DAY: i64 = 8_640_000_000;

/// The units of a second.
const SECOND: u64 = 100_000;

/// The day of the stamp that was said last, as text: of stamps on the same day only the time is made anew.
#[derive(Drop)]
pub struct DayText {
    /// In units since 1970.
    midnight: i64,
    /// The date, a blank, a time in whole seconds, which is the one that was said last, and a blank.
    text: [u8; 26],
    ghost is_midnight: { IsMidnight midnight },
    ghost bounds: { IsStamp midnight },
    ghost is_text: { take 11 text ≡ day_text (day_of midnight) },
    ghost colon: { take 1 (drop 13 text) ≡ 58 ∷ [] },
    ghost next_colon: { take 1 (drop 16 text) ≡ 58 ∷ [] },
    ghost whole: { take 7 (drop 19 text) ≡ no_fraction },
}

impl DayText {
    /// That of 1970-01-01.
    pub fn first() -> DayText {
        let Some(stamp) = Stamp::of(0) else {
            unreachable!()
        };
        DayText::of(stamp)
    }

    // That of a stamp.
    fn of(stamp: Stamp) -> DayText
        ensures { day_of result.midnight ≡ day_of stamp }
    {
        let mut whole = [0u8; 25];
        stamp.write_into(&mut whole);
        DayText {
            midnight: midnight_before(stamp),
            text: midnight_text(&whole),
        }
    }

    // The units of a stamp since midnight, whose day is the one from now on.
    fn turn(&mut self, stamp: Stamp) -> u64
        ensures day { day_of self.new.midnight ≡ day_of stamp }
        ensures clock { result ≡ clock_of stamp }
        ensures below { result < 8_640_000_000 }
    {
        let since = stamp.units() - self.midnight;
        if since >= 0 && since < DAY {
            return since as u64;
        }
        self.turn_anew(stamp)
    }

    // The same of a stamp on another day. It stands by itself, since most stamps are on the same day.
    #[inline(never)]
    fn turn_anew(&mut self, stamp: Stamp) -> u64
        ensures day { day_of self.new.midnight ≡ day_of stamp }
        ensures clock { result ≡ clock_of stamp }
        ensures below { result < 8_640_000_000 }
    {
        *self = DayText::of(stamp);
        clock(stamp)
    }

    /// Says a stamp, and a blank behind it.
    pub(crate) fn say(&mut self, out: &mut Reply, stamp: Stamp) -> Result<(), AllocError>
        ensures ok { OnOk result (out.new ≡ out.old ++ stamp_text stamp ++ 32 ∷ []) }
        ensures err { OnErr result (Extends out.old out.new) }
    {
        let clock = self.turn(stamp);
        let seconds = (clock / SECOND) as u32;
        *self = self.with_time(seconds);
        let fraction = clock - seconds as u64 * SECOND;
        if fraction > 0 {
            return self.say_fraction(out, fraction as u32);
        }
        out.extend_from_slice(&self.text)
    }

    // Says the same day and time with a fraction of a second. It stands by itself, since most stamps are whole seconds.
    #[inline(never)]
    fn say_fraction(&self, out: &mut Reply, fraction: u32) -> Result<(), AllocError>
        requires { fraction < 100_000 }
        ensures ok { OnOk result (out.new ≡ out.old
            ++ take 19 self.now.text ++ 46 ∷ Moment.five_digits fraction ++ 32 ∷ []) }
        ensures err { OnErr result (Extends out.old out.new) }
    {
        out.extend_from_slice(&text_and_fraction(&self.text, &five_digits(fraction)))
    }

    // The same day, at so many seconds since its midnight.
    #[inline(always)]
    fn with_time(&self, seconds: u32) -> DayText
        requires { seconds < 86_400 }
        ensures same { result.midnight ≡ self.now.midnight }
        ensures text { result.text ≡ day_text (day_of self.now.midnight) ++ seconds_text seconds ++ no_fraction }
    {
        let minutes = seconds / 60;
        let hour = minutes / 60;
        let digits = (
            two_digits(hour),
            two_digits(minutes - hour * 60),
            two_digits(seconds - minutes * 60),
        );
        DayText {
            midnight: self.midnight,
            text: text_and_time(&self.text, &digits.0, &digits.1, &digits.2),
        }
    }
}

// A text with another hour, minute and second in it.
#[inline(always)]
fn text_and_time(text: &[u8; 26], hour: &[u8; 2], minute: &[u8; 2], second: &[u8; 2]) -> [u8; 26]
    ensures { result ≡ take 11 text.now ++ take 2 hour.now ++ take 1 (drop 13 text.now) ++ take 2 minute.now
        ++ take 1 (drop 16 text.now) ++ take 2 second.now ++ take 7 (drop 19 text.now) }
{
    [
        text[0], text[1], text[2], text[3], text[4], text[5], text[6], text[7], text[8], text[9],
        text[10], hour[0], hour[1], text[13], minute[0], minute[1], text[16], second[0], second[1],
        text[19], text[20], text[21], text[22], text[23], text[24], text[25],
    ]
}

// A text with a fraction of a second in it.
fn text_and_fraction(text: &[u8; 26], fraction: &[u8; 5]) -> [u8; 26]
    ensures { result ≡ take 19 text.now ++ 46 ∷ take 5 fraction.now ++ 32 ∷ [] }
{
    [
        text[0],
        text[1],
        text[2],
        text[3],
        text[4],
        text[5],
        text[6],
        text[7],
        text[8],
        text[9],
        text[10],
        text[11],
        text[12],
        text[13],
        text[14],
        text[15],
        text[16],
        text[17],
        text[18],
        b'.',
        fraction[0],
        fraction[1],
        fraction[2],
        fraction[3],
        fraction[4],
        b' ',
    ]
}

// The text of a day's midnight, by that of a stamp on the day.
fn midnight_text(whole: &[u8; 25]) -> [u8; 26]
    ensures { result ≡ take 11 whole.now ++ seconds_text 0 ++ no_fraction }
{
    [
        whole[0], whole[1], whole[2], whole[3], whole[4], whole[5], whole[6], whole[7], whole[8],
        whole[9], whole[10], b'0', b'0', b':', b'0', b'0', b':', b'0', b'0', b'.', b'0', b'0',
        b'0', b'0', b'0', b' ',
    ]
}

// The units of a stamp since midnight.
fn clock(stamp: Stamp) -> u64
    ensures value { result ≡ clock_of stamp }
    ensures below { result < 8_640_000_000 }
{
    stamp.units().rem_euclid(DAY) as u64
}

// The last midnight before a stamp.
fn midnight_before(stamp: Stamp) -> i64
    ensures midnight { IsMidnight result }
    ensures within { IsStamp result }
    ensures day { day_of result ≡ day_of stamp }
{
    stamp.units() - clock(stamp) as i64
}

// The digits of a fraction of a second.
fn five_digits(n: u32) -> [u8; 5]
    requires { n < 100_000 }
    ensures { result ≡ Moment.five_digits n }
{
    let [ten_thousands, thousands] = two_digits(n / 1000);
    let [hundreds, tens] = two_digits(n % 1000 / 10);
    [
        ten_thousands,
        thousands,
        hundreds,
        tens,
        b'0' + (n % 10) as u8,
    ]
}
