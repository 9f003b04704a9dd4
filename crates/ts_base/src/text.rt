// The text of a stamp, `YYYY-MM-DD HH:MM:SS.FFFFF`: its form, its digits and its bytes.
ghost use Rattle.std.specs.Prelude.{◌≡◌, ◌+◌, ◌-◌, ◌*◌, ◌^◌, ◌<◌, ◌≤◌, length, drop, IsTrue};
ghost use Rattle.ts_base.specs.Moment.{all_digits, number_of, has_stamp_form, has_stamp_length, has_stamp_signs};
ghost use Rattle.ts_base.specs.Moment.{has_stamp_digits, digit, text_of};

// Whether a text has digits and signs in the places of a stamp.
pub(crate) fn has_form(text: &[u8]) -> bool
    ensures { result ≡ has_stamp_form text.now }
{
    has_length(text) && has_signs(text) && has_digits(text)
}

fn has_length(text: &[u8]) -> bool
    ensures { result ≡ has_stamp_length text.now }
{
    match text.len() {
        19 => true,
        21..=25 => text[19] == b'.',
        _ => false,
    }
}

fn has_signs(text: &[u8]) -> bool
    requires { 19 ≤ length text.now }
    ensures { result ≡ has_stamp_signs text.now }
{
    text[4] == b'-' && text[7] == b'-' && text[10] == b' ' && text[13] == b':' && text[16] == b':'
}

fn has_digits(text: &[u8]) -> bool
    requires { (19 ≤ length text.now) × (length text.now ≤ 25) }
    ensures { result ≡ has_stamp_digits text.now }
{
    are_digits(&text[0..4])
        && are_digits(&text[5..7])
        && are_digits(&text[8..10])
        && are_digits(&text[11..13])
        && are_digits(&text[14..16])
        && are_digits(&text[17..19])
        && are_digits(fraction_text(text))
}

// The bytes after the point, if there is one.
pub(crate) fn fraction_text(text: &[u8]) -> &[u8]
    requires { length text.now ≤ 25 }
    ensures value { result.now ≡ drop 20 text.now }
    ensures short { length result.now ≤ 5 }
{
    if text.len() < 20 { &[] } else { &text[20..] }
}

fn are_digits(text: &[u8]) -> bool
    ensures { result ≡ all_digits text.now }
{
    text.iter().all(|c| c.is_ascii_digit())
}

// The number that at most nine digits write.
pub(crate) fn number(text: &[u8]) -> u32
    requires digits { IsTrue (all_digits text.now) }
    requires short { length text.now ≤ 9 }
    ensures value { result ≡ number_of text.now }
    ensures bound { result < 10 ^ length text.now }
{
    let mut n: u32 = 0;
    for c in text {
        n = n * 10 + (*c - b'0') as u32;
    }
    n
}

// The units that one to five digits after the point stand for.
pub(crate) fn fraction(text: &[u8]) -> u32
    requires digits { IsTrue (all_digits text.now) }
    requires short { length text.now ≤ 5 }
    ensures value { result ≡ number_of text.now * 10 ^ (5 - length text.now) }
    ensures bound { result < 100_000 }
{
    let n = number(text);
    match text.len() {
        5 => n,
        4 => n * 10,
        3 => n * 100,
        2 => n * 1000,
        1 => n * 10_000,
        _ => 0,
    }
}

// Writes a date and the units since midnight.
pub(crate) fn write_parts(year: u32, month: u32, day: u32, clock: u64, into: &mut [u8; 25])
    requires { clock < 8_640_000_000 }
    ensures { into.new ≡ text_of (record { year = year; month = month; day = day }) clock }
{
    let hour = (clock / 360_000_000) as u32;
    let minute = (clock / 6_000_000 % 60) as u32;
    let second = (clock / 100_000 % 60) as u32;
    let fraction = (clock % 100_000) as u32;
    *into = [
        digit(year / 1000),
        digit(year / 100),
        digit(year / 10),
        digit(year),
        b'-',
        digit(month / 10),
        digit(month),
        b'-',
        digit(day / 10),
        digit(day),
        b' ',
        digit(hour / 10),
        digit(hour),
        b':',
        digit(minute / 10),
        digit(minute),
        b':',
        digit(second / 10),
        digit(second),
        b'.',
        digit(fraction / 10_000),
        digit(fraction / 1000),
        digit(fraction / 100),
        digit(fraction / 10),
        digit(fraction),
    ];
}

// The last digit of a number, as text.
fn digit(n: u32) -> u8
    ensures { result ≡ digit n }
{
    b'0' + (n % 10) as u8
}
