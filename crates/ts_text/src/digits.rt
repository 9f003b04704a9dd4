// Numbers in decimal digits, read and printed.
ghost use Rattle.std.specs.Prelude.{◌≡◌, ◌^◌, ◌<◌, ◌≤◌, ◌++◌, length, IsTrue, OnErr, OnOk};
ghost use Rattle.std.specs.List.{list_all};
ghost use Rattle.std.specs.Char.{is_ascii_digit};
ghost use Rattle.std.specs.Fmt.{decimal};
ghost use Rattle.ts_base.specs.Answer.{Extends};
ghost use Rattle.ts_base.specs.Moment.{all_digits, number_of};
ghost use Rattle.ts_text.specs.Phrase.{digit_count, magnitude_of};

use std::alloc::AllocError;
use ts_base::Bytes;

/// Whether each byte is a digit.
pub fn are_digits(bytes: &[u8]) -> bool
    ensures { result ≡ list_all is_ascii_digit bytes.now }
{
    bytes.iter().all(|byte| byte.is_ascii_digit())
}

/// The number that the digits write, whatever stands between them.
pub fn magnitude(token: &[u8]) -> u128
    requires { digit_count token.now ≤ 38 }
    ensures value { result ≡ magnitude_of token.now }
    ensures bound { result < 10 ^ digit_count token.now }
    ensures most { result < 10 ^ 38 }
{
    let mut value = 0;
    for byte in token {
        if byte.is_ascii_digit() {
            value = value * 10 + u128::from(*byte - b'0');
        }
    }
    value
}

/// The number that at most nine digits write.
pub fn number(digits: &[u8]) -> u32
    requires digits { IsTrue (all_digits digits.now) }
    requires few { length digits.now ≤ 9 }
    ensures value { result ≡ number_of digits.now }
    ensures bound { result < 10 ^ 9 }
{
    let number = magnitude(digits);
    number as u32
}

/// Puts a number in decimal digits to the end.
pub fn print_number(number: u32, out: &mut Bytes) -> Result<(), AllocError>
    ensures ok { OnOk result (out.new ≡ out.old ++ decimal number) }
    ensures err { OnErr result (Extends out.old out.new) }
{
    if number < 10 {
        return out.push(b'0' + number as u8);
    }
    print_number(number / 10, out)?;
    out.push(b'0' + (number % 10) as u8)
}
