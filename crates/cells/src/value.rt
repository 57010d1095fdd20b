// The value of digits: one digit more, and whether the value still has 64 bits.
ghost use Rattle.std.specs.Prelude.{◌≡◌, ◌+◌, ◌*◌, ◌<◌};
ghost use Rattle.word.specs.Digit.{digit_value};
ghost use Rattle.cells.specs.Value.{with_digit};
ghost use Rattle.cells.specs.Code.Growth.{grown_to};

use word::digit::digit_value;

// Most values are so small that no digit of any radix takes them above 64 bits. The others are multiplied in 128, so nothing is divided by
// the radix, as `checked_mul` would do.
fn times_plus(value: u64, radix: u64, digit: u64) -> Option<u64>
    requires { (radix < 256) × (digit < 256) }
    ensures { result ≡ grown_to (value * radix + digit) }
{
    let small = value < 1 << 56;
    if small {
        return Some(value * radix + digit);
    }
    let whole = u128::from(value) * u128::from(radix) + u128::from(digit);
    u64::try_from(whole).ok()
}

// A value with the digit c behind it.
pub(crate) fn with_digit(value: u64, radix: u8, c: u8) -> Option<u64>
    ensures { result ≡ grown_to (with_digit radix value (digit_value c)) }
{
    let digit = digit_value(c);
    match digit {
        Some(d) => times_plus(value, u64::from(radix), u64::from(d)),
        None => Some(value),
    }
}
