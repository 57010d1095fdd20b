// The layout of a format word, its fields, and the validators of single fields. After lexical-util's format_flags.rs.
ghost use Rattle.std.specs.Prelude.{◌≡◌, ℕ, ◌+◌, ◌<◌, ◌≤◌, max, if◌then◌else◌, ◌==◌};
ghost use Rattle.word.specs.Bits.{bits, bit};
ghost use Rattle.word.specs.Word.{field, flag, digit_separator, base_prefix, base_suffix, mantissa_radix, exponent_base, exponent_radix};
ghost use Rattle.word.specs.Check.{valid_radix, valid_control_in, valid_control, valid_punctuation, valid_exponent_flags};

use crate::ascii::is_valid_ascii;
use crate::digit::char_is_digit_const;

// The word's 128 bits in two halves; bit 0 is the lowest of `lo`, bit 64 the lowest of `hi`.
#[derive(Clone, Copy, Debug, PartialEq, Eq)]
pub struct Format {
    pub lo: u64,
    pub hi: u64,
}

// Positions of the flags, by the crate's names (which there stand for masks).
pub const REQUIRED_INTEGER_DIGITS: u32 = 0;

pub const REQUIRED_FRACTION_DIGITS: u32 = 1;

pub const REQUIRED_EXPONENT_DIGITS: u32 = 2;

pub const REQUIRED_MANTISSA_DIGITS: u32 = 3;

pub const NO_POSITIVE_MANTISSA_SIGN: u32 = 4;

pub const REQUIRED_MANTISSA_SIGN: u32 = 5;

pub const NO_EXPONENT_NOTATION: u32 = 6;

pub const NO_POSITIVE_EXPONENT_SIGN: u32 = 7;

pub const REQUIRED_EXPONENT_SIGN: u32 = 8;

pub const NO_SPECIAL: u32 = 10;

pub const CASE_SENSITIVE_SPECIAL: u32 = 11;

pub const REQUIRED_EXPONENT_NOTATION: u32 = 14;

pub const INTEGER_INTERNAL_DIGIT_SEPARATOR: u32 = 32;

pub const FRACTION_INTERNAL_DIGIT_SEPARATOR: u32 = 33;

pub const EXPONENT_INTERNAL_DIGIT_SEPARATOR: u32 = 34;

pub const INTEGER_LEADING_DIGIT_SEPARATOR: u32 = 35;

pub const FRACTION_LEADING_DIGIT_SEPARATOR: u32 = 36;

pub const EXPONENT_LEADING_DIGIT_SEPARATOR: u32 = 37;

pub const INTEGER_TRAILING_DIGIT_SEPARATOR: u32 = 38;

pub const FRACTION_TRAILING_DIGIT_SEPARATOR: u32 = 39;

pub const EXPONENT_TRAILING_DIGIT_SEPARATOR: u32 = 40;

pub const INTEGER_CONSECUTIVE_DIGIT_SEPARATOR: u32 = 41;

pub const FRACTION_CONSECUTIVE_DIGIT_SEPARATOR: u32 = 42;

pub const EXPONENT_CONSECUTIVE_DIGIT_SEPARATOR: u32 = 43;

pub const SPECIAL_DIGIT_SEPARATOR: u32 = 44;

// Positions of the fields of eight bits, all in the upper half.
pub const DIGIT_SEPARATOR_SHIFT: u32 = 64;

pub const BASE_PREFIX_SHIFT: u32 = 88;

pub const BASE_SUFFIX_SHIFT: u32 = 96;

pub const MANTISSA_RADIX_SHIFT: u32 = 104;

pub const EXPONENT_BASE_SHIFT: u32 = 112;

pub const EXPONENT_RADIX_SHIFT: u32 = 120;

// `width` bits of half a word, or of a part of a set of bytes, from bit `shift` up: every lookup of a bit ends here.
pub(crate) fn bits_at(half: u64, shift: u32, width: u32) -> u64
    requires { (shift < 64) × (width < 64) }
    ensures { result ≡ bits half shift width }
{
    let mask = (1 << width) - 1;
    (half >> shift) & mask
}

// Whether a bit is set, at any position; past the 64 bits none is.
pub fn bit_at(half: u64, position: u32) -> bool
    ensures { result ≡ bit half position }
{
    if position < 64 {
        return bits_at(half, position, 1) == 1;
    }
    false
}

// `width` bits of the lower half of the word.
pub(crate) fn low_bits(format: Format, shift: u32, width: u32) -> u64
    requires { (shift + width ≤ 64) × (0 < width) × (width < 64) }
    ensures { result ≡ field format shift width }
{
    bits_at(format.lo, shift, width)
}

// A flag of the lower half of the word.
#[tactic(auto, unfolding(crate::specs::Bits::bit, crate::specs::Word::flag, crate::specs::Word::field))]
pub(crate) fn flag_at(format: Format, position: u32) -> bool
    requires { position < 64 }
    ensures { result ≡ flag format position }
{
    low_bits(format, position, 1) == 1
}

// Eight bits of the upper half of the word. `as` loses nothing of them, and `try_from` would answer an error that cannot come.
fn byte_at(format: Format, shift: u32) -> u8
    requires { (64 ≤ shift) × (shift < 128) }
    ensures { result ≡ field format shift 8 }
{
    bits_at(format.hi, shift - 64, 8) as u8
}

pub fn digit_separator(format: Format) -> u8
    ensures { result ≡ digit_separator format }
{
    byte_at(format, DIGIT_SEPARATOR_SHIFT)
}

pub fn base_prefix(format: Format) -> u8
    ensures { result ≡ base_prefix format }
{
    byte_at(format, BASE_PREFIX_SHIFT)
}

pub fn base_suffix(format: Format) -> u8
    ensures { result ≡ base_suffix format }
{
    byte_at(format, BASE_SUFFIX_SHIFT)
}

// The mantissa radix as the byte that it is in the word: in eight bits a digit is compared by one load of a byte.
pub fn mantissa_radix_byte(format: Format) -> u8
    ensures { result ≡ mantissa_radix format }
{
    byte_at(format, MANTISSA_RADIX_SHIFT)
}

pub fn mantissa_radix(format: Format) -> u32
    ensures { result ≡ mantissa_radix format }
{
    u32::from(mantissa_radix_byte(format))
}

// A radix field's value, for which the mantissa radix stands in where it is 0.
fn radix_or_mantissa(format: Format, radix: u8) -> u32
    ensures { result ≡ (if radix == 0 then mantissa_radix format else radix) }
{
    let absent = radix == 0;
    if absent {
        mantissa_radix(format)
    } else {
        u32::from(radix)
    }
}

pub fn exponent_base(format: Format) -> u32
    ensures { result ≡ exponent_base format }
{
    radix_or_mantissa(format, byte_at(format, EXPONENT_BASE_SHIFT))
}

pub fn exponent_radix(format: Format) -> u32
    ensures { result ≡ exponent_radix format }
{
    radix_or_mantissa(format, byte_at(format, EXPONENT_RADIX_SHIFT))
}

pub fn is_valid_exponent_flags(format: Format) -> bool
    ensures { result ≡ valid_exponent_flags format }
{
    !(flag_at(format, NO_EXPONENT_NOTATION) & flag_at(format, REQUIRED_EXPONENT_NOTATION))
}

// Whether a byte may be a control byte of a word whose digits are those of this radix.
pub(crate) fn is_valid_optional_control_radix(radix: u32, value: u8) -> bool
    ensures { result ≡ valid_control_in radix value }
{
    !char_is_digit_const(value, radix)
        & (value != b'+')
        & (value != b'-')
        & (is_valid_ascii(value) | (value == 0))
}

// The larger of mantissa and exponent radix: its digits are those of both.
pub(crate) fn larger_radix(format: Format) -> u32
    ensures { result ≡ max (mantissa_radix format) (exponent_radix format) }
{
    mantissa_radix(format).max(exponent_radix(format))
}

// Whether a byte may be a control byte of the word.
fn is_valid_control(format: Format, value: u8) -> bool
    ensures { result ≡ valid_control format value }
{
    is_valid_optional_control_radix(larger_radix(format), value)
}

pub fn is_valid_digit_separator(format: Format) -> bool
    ensures { result ≡ valid_control format (digit_separator format) }
{
    is_valid_control(format, digit_separator(format))
}

pub fn is_valid_base_prefix(format: Format) -> bool
    ensures { result ≡ valid_control format (base_prefix format) }
{
    is_valid_control(format, base_prefix(format))
}

pub fn is_valid_base_suffix(format: Format) -> bool
    ensures { result ≡ valid_control format (base_suffix format) }
{
    is_valid_control(format, base_suffix(format))
}

// Two of the three are absent, or all three differ.
pub fn is_valid_punctuation(format: Format) -> bool
    ensures { result ≡ valid_punctuation format }
{
    let separator = digit_separator(format);
    let prefix = base_prefix(format);
    let suffix = base_suffix(format);
    ((separator == 0) & (prefix == 0)
        | (separator == 0) & (suffix == 0)
        | (prefix == 0) & (suffix == 0))
        | !((separator == prefix) | (separator == suffix) | (prefix == suffix))
}

pub fn is_valid_radix(radix: u32) -> bool
    ensures { result ≡ valid_radix radix }
{
    (2 <= radix) & (radix <= 36)
}
