// The digits of small numbers, by a table.
ghost use Rattle.std.specs.Prelude.{◌≡◌, ◌<◌};
ghost use Rattle.ts_base.specs.Moment;

/// The two digits of each number below a hundred.
static PAIRS: [u8; 200] =
    *b"0001020304050607080910111213141516171819202122232425262728293031323334353637383940414243444546474849\
      5051525354555657585960616263646566676869707172737475767778798081828384858687888990919293949596979899";

/// A number of at most two digits, as text.
#[inline(always)]
pub(crate) fn two_digits(n: u32) -> [u8; 2]
    requires { n < 100 }
    ensures { result ≡ Moment.two_digits n }
{
    let from = n as usize * 2;
    [PAIRS[from], PAIRS[from + 1]]
}
