// The plain check, of the crate's build without separators. After lexical-util's not_feature_format.rs.
ghost use Rattle.std.specs.Prelude.{◌≡◌};
ghost use Rattle.word.specs.Error.{number_of};
ghost use Rattle.word.specs.Check.{first_failing, plain_control_lines, plain_flags, plain_check};

use crate::error::Error;
use crate::feature_format::{line, radix_error_impl};
use crate::format_flags as flags;
use crate::format_flags::Format;

// The crate's FLAG_MASK is two runs of bits: 0 to 17, of which these must be set, and 32 to 44, of which none may be.
const VALID_FLAGS: u64 = 0b1100;

const FLAG_RUN: u32 = 18;

const SEPARATOR_FLAG_SHIFT: u32 = 32;

const SEPARATOR_FLAG_RUN: u32 = 13;

fn has_valid_flags(format: Format) -> bool
    ensures { result ≡ plain_flags format }
{
    (flags::low_bits(format, 0, FLAG_RUN) == VALID_FLAGS)
        & (flags::low_bits(format, SEPARATOR_FLAG_SHIFT, SEPARATOR_FLAG_RUN) == 0)
}

// Lines 4 to 6: none of the control bytes may be given, so line 7 cannot fail.
fn control_error(format: Format) -> Error
    ensures { number_of result ≡ first_failing (plain_control_lines format) }
{
    line(
        flags::digit_separator(format) == 0,
        Error::InvalidDigitSeparator,
        line(
            flags::base_prefix(format) == 0,
            Error::InvalidBasePrefix,
            line(
                flags::base_suffix(format) == 0,
                Error::InvalidBaseSuffix,
                Error::Success,
            ),
        ),
    )
}

// The plain check: the first line that fails.
pub fn format_error_impl(format: Format) -> Error
    ensures { number_of result ≡ plain_check format }
{
    let radix = radix_error_impl(format);
    let radix_holds = radix.is_success();
    if !radix_holds {
        return radix;
    }
    let control = control_error(format);
    let control_holds = control.is_success();
    if !control_holds {
        return control;
    }
    line(has_valid_flags(format), Error::InvalidFlags, Error::Success)
}
