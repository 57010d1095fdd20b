// The fields and flags of a format word as methods, and the full check. After lexical-util's feature_format.rs; a method for each flag,
// and the fields also as functions (format_flags.rt), since the crate has both.
ghost use Rattle.std.specs.Prelude.{◌≡◌, ◌≢◌, ◌<◌, if◌then◌else◌, ◌==◌, MatchResult};
ghost use Rattle.word.specs.Word.{flag, digit_separator, base_prefix, base_suffix, mantissa_radix, exponent_base, exponent_radix};
ghost use Rattle.word.specs.Error.{number_of};
ghost use Rattle.word.specs.Check.{first_failing, radix_lines, control_lines, flag_lines, consecutive_alone, consecutive_lines, full_check};

use crate::error::Error;
use crate::format_flags as flags;
use crate::format_flags::{Format, flag_at};

impl Format {
    pub fn is_valid(self) -> bool
        ensures { result ≡ (full_check self == 0) }
    {
        self.error().is_success()
    }

    pub fn error(self) -> Error
        ensures { number_of result ≡ full_check self }
    {
        format_error_impl(self)
    }

    // The full check as a result, for `?`.
    pub fn check(self) -> Result<(), Error>
        ensures { MatchResult result (λ _. full_check self ≡ 0) (λ e. (number_of e ≡ full_check self) × (full_check self ≢ 0)) }
    {
        let error = self.error();
        if error.is_success() {
            Ok(())
        } else {
            Err(error)
        }
    }

    pub fn is_valid_radix(self) -> bool
        ensures { result ≡ (first_failing (radix_lines self) == 0) }
    {
        self.error_radix().is_success()
    }

    pub fn error_radix(self) -> Error
        ensures { number_of result ≡ first_failing (radix_lines self) }
    {
        radix_error_impl(self)
    }

    pub fn digit_separator(self) -> u8
        ensures { result ≡ digit_separator self }
    {
        flags::digit_separator(self)
    }

    pub fn base_prefix(self) -> u8
        ensures { result ≡ base_prefix self }
    {
        flags::base_prefix(self)
    }

    pub fn base_suffix(self) -> u8
        ensures { result ≡ base_suffix self }
    {
        flags::base_suffix(self)
    }

    pub fn mantissa_radix(self) -> u32
        ensures { result ≡ mantissa_radix self }
    {
        flags::mantissa_radix(self)
    }

    pub fn exponent_base(self) -> u32
        ensures { result ≡ exponent_base self }
    {
        flags::exponent_base(self)
    }

    pub fn exponent_radix(self) -> u32
        ensures { result ≡ exponent_radix self }
    {
        flags::exponent_radix(self)
    }

    pub fn required_integer_digits(self) -> bool
        ensures { result ≡ flag self 0 }
    {
        flag_at(self, flags::REQUIRED_INTEGER_DIGITS)
    }

    pub fn required_fraction_digits(self) -> bool
        ensures { result ≡ flag self 1 }
    {
        flag_at(self, flags::REQUIRED_FRACTION_DIGITS)
    }

    pub fn required_exponent_digits(self) -> bool
        ensures { result ≡ flag self 2 }
    {
        flag_at(self, flags::REQUIRED_EXPONENT_DIGITS)
    }

    pub fn required_mantissa_digits(self) -> bool
        ensures { result ≡ flag self 3 }
    {
        flag_at(self, flags::REQUIRED_MANTISSA_DIGITS)
    }

    pub fn no_positive_mantissa_sign(self) -> bool
        ensures { result ≡ flag self 4 }
    {
        flag_at(self, flags::NO_POSITIVE_MANTISSA_SIGN)
    }

    pub fn required_mantissa_sign(self) -> bool
        ensures { result ≡ flag self 5 }
    {
        flag_at(self, flags::REQUIRED_MANTISSA_SIGN)
    }

    pub fn no_exponent_notation(self) -> bool
        ensures { result ≡ flag self 6 }
    {
        flag_at(self, flags::NO_EXPONENT_NOTATION)
    }

    pub fn no_positive_exponent_sign(self) -> bool
        ensures { result ≡ flag self 7 }
    {
        flag_at(self, flags::NO_POSITIVE_EXPONENT_SIGN)
    }

    pub fn required_exponent_sign(self) -> bool
        ensures { result ≡ flag self 8 }
    {
        flag_at(self, flags::REQUIRED_EXPONENT_SIGN)
    }

    pub fn no_special(self) -> bool
        ensures { result ≡ flag self 10 }
    {
        flag_at(self, flags::NO_SPECIAL)
    }

    pub fn case_sensitive_special(self) -> bool
        ensures { result ≡ flag self 11 }
    {
        flag_at(self, flags::CASE_SENSITIVE_SPECIAL)
    }

    pub fn required_exponent_notation(self) -> bool
        ensures { result ≡ flag self 14 }
    {
        flag_at(self, flags::REQUIRED_EXPONENT_NOTATION)
    }

    pub fn integer_internal_digit_separator(self) -> bool
        ensures { result ≡ flag self 32 }
    {
        flag_at(self, flags::INTEGER_INTERNAL_DIGIT_SEPARATOR)
    }

    pub fn fraction_internal_digit_separator(self) -> bool
        ensures { result ≡ flag self 33 }
    {
        flag_at(self, flags::FRACTION_INTERNAL_DIGIT_SEPARATOR)
    }

    pub fn exponent_internal_digit_separator(self) -> bool
        ensures { result ≡ flag self 34 }
    {
        flag_at(self, flags::EXPONENT_INTERNAL_DIGIT_SEPARATOR)
    }

    pub fn integer_leading_digit_separator(self) -> bool
        ensures { result ≡ flag self 35 }
    {
        flag_at(self, flags::INTEGER_LEADING_DIGIT_SEPARATOR)
    }

    pub fn fraction_leading_digit_separator(self) -> bool
        ensures { result ≡ flag self 36 }
    {
        flag_at(self, flags::FRACTION_LEADING_DIGIT_SEPARATOR)
    }

    pub fn exponent_leading_digit_separator(self) -> bool
        ensures { result ≡ flag self 37 }
    {
        flag_at(self, flags::EXPONENT_LEADING_DIGIT_SEPARATOR)
    }

    pub fn integer_trailing_digit_separator(self) -> bool
        ensures { result ≡ flag self 38 }
    {
        flag_at(self, flags::INTEGER_TRAILING_DIGIT_SEPARATOR)
    }

    pub fn fraction_trailing_digit_separator(self) -> bool
        ensures { result ≡ flag self 39 }
    {
        flag_at(self, flags::FRACTION_TRAILING_DIGIT_SEPARATOR)
    }

    pub fn exponent_trailing_digit_separator(self) -> bool
        ensures { result ≡ flag self 40 }
    {
        flag_at(self, flags::EXPONENT_TRAILING_DIGIT_SEPARATOR)
    }

    pub fn integer_consecutive_digit_separator(self) -> bool
        ensures { result ≡ flag self 41 }
    {
        flag_at(self, flags::INTEGER_CONSECUTIVE_DIGIT_SEPARATOR)
    }

    pub fn fraction_consecutive_digit_separator(self) -> bool
        ensures { result ≡ flag self 42 }
    {
        flag_at(self, flags::FRACTION_CONSECUTIVE_DIGIT_SEPARATOR)
    }

    pub fn exponent_consecutive_digit_separator(self) -> bool
        ensures { result ≡ flag self 43 }
    {
        flag_at(self, flags::EXPONENT_CONSECUTIVE_DIGIT_SEPARATOR)
    }

    pub fn special_digit_separator(self) -> bool
        ensures { result ≡ flag self 44 }
    {
        flag_at(self, flags::SPECIAL_DIGIT_SEPARATOR)
    }
}

// One line of a check: its error where it fails, else what the lines after it say. An error that is `Success` where there is none stays one
// number: as `Result<(), Error>`, with lines joined by `and` and groups left by `?`, an accepted word was checked a fifth slower.
pub(crate) fn line(holds: bool, error: Error, rest: Error) -> Error
    ensures { number_of result ≡ (if holds then number_of rest else number_of error) }
{
    if holds { rest } else { error }
}

// Lines 1 to 3 of the check. Most words that are no format fail the first, so it is tested alone.
pub fn radix_error_impl(format: Format) -> Error
    ensures { number_of result ≡ first_failing (radix_lines format) }
{
    let valid = flags::is_valid_radix(flags::mantissa_radix(format));
    if !valid {
        return Error::InvalidMantissaRadix;
    }
    line(
        flags::is_valid_radix(flags::exponent_base(format)),
        Error::InvalidExponentBase,
        line(
            flags::is_valid_radix(flags::exponent_radix(format)),
            Error::InvalidExponentRadix,
            Error::Success,
        ),
    )
}

// Lines 4 to 7. The radix is found once for the three control bytes.
fn control_error(format: Format) -> Error
    ensures { number_of result ≡ first_failing (control_lines format) }
{
    let radix = flags::larger_radix(format);
    let separator = flags::is_valid_optional_control_radix(radix, flags::digit_separator(format));
    let prefix = flags::is_valid_optional_control_radix(radix, flags::base_prefix(format));
    let suffix = flags::is_valid_optional_control_radix(radix, flags::base_suffix(format));
    let punctuation = line(
        flags::is_valid_punctuation(format),
        Error::InvalidPunctuation,
        Error::Success,
    );
    line(
        separator,
        Error::InvalidDigitSeparator,
        line(
            prefix,
            Error::InvalidBasePrefix,
            line(suffix, Error::InvalidBaseSuffix, punctuation),
        ),
    )
}

// Lines 8 to 11.
fn flag_error(format: Format) -> Error
    ensures { number_of result ≡ first_failing (flag_lines format) }
{
    line(
        flags::is_valid_exponent_flags(format),
        Error::InvalidExponentFlags,
        line(
            !(format.no_positive_mantissa_sign() & format.required_mantissa_sign()),
            Error::InvalidMantissaSign,
            line(
                !(format.no_positive_exponent_sign() & format.required_exponent_sign()),
                Error::InvalidExponentSign,
                line(
                    !(format.no_special()
                        & (format.case_sensitive_special() | format.special_digit_separator())),
                    Error::InvalidSpecial,
                    Error::Success,
                ),
            ),
        ),
    )
}

// Whether a counted reader has its consecutive flag and no other. A number, 0 integer, 1 fraction, 2 exponent: a reader's flags lie that
// far behind the integer's, and its type comes with the readers (crate reader), which stand on this check.
fn is_consecutive_alone(format: Format, reader: u32) -> bool
    requires { reader < 3 }
    ensures { result ≡ consecutive_alone format reader }
{
    flag_at(format, flags::INTEGER_CONSECUTIVE_DIGIT_SEPARATOR + reader)
        & !flag_at(format, flags::INTEGER_INTERNAL_DIGIT_SEPARATOR + reader)
        & !flag_at(format, flags::INTEGER_LEADING_DIGIT_SEPARATOR + reader)
        & !flag_at(format, flags::INTEGER_TRAILING_DIGIT_SEPARATOR + reader)
}

// Lines 12 to 14.
fn consecutive_error(format: Format) -> Error
    ensures { number_of result ≡ first_failing (consecutive_lines format) }
{
    line(
        !is_consecutive_alone(format, 0),
        Error::InvalidConsecutiveIntegerDigitSeparator,
        line(
            !is_consecutive_alone(format, 1),
            Error::InvalidConsecutiveFractionDigitSeparator,
            line(
                !is_consecutive_alone(format, 2),
                Error::InvalidConsecutiveExponentDigitSeparator,
                Error::Success,
            ),
        ),
    )
}

// The full check: the first line that fails.
pub fn format_error_impl(format: Format) -> Error
    ensures { number_of result ≡ full_check format }
{
    let radix = radix_error_impl(format);
    let radix_holds = radix.is_success();
    if !radix_holds {
        return radix;
    }
    let control = control_error(format);
    let control_holds = control.is_success();
    if !control_holds {
        return control;
    }
    let flags = flag_error(format);
    let flags_hold = flags.is_success();
    if !flags_hold {
        return flags;
    }
    consecutive_error(format)
}
