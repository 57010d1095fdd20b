// What Rust and C link: the checks of a format word and the reader calls. The word of 128 bits comes as two halves of 64, a state as
// eight words that the caller lends and an answer as four (src/state.rt, src/reply.rt), a reader as a byte. What is returned is a number
// of document 01's table, 19 where a byte names no reader or a state no edition. Every number is answered. What no contract sees is the
// caller's to see to: a pointer is not null, also where its slice is empty or its place goes unused; it is aligned for its type, and
// valid for as many elements as the length beside it says, or as its array has; nothing that is written overlaps anything else that is
// passed; and nobody else writes to any of it during the call.
#![tactic(auto)]

ghost use Rattle.std.specs.Prelude.{◌≡◌};
ghost use Rattle.word.specs.Digit.{is_digit};
ghost use Rattle.word.specs.Ascii.{valid_ascii};
ghost use Rattle.word.specs.Check.{full_check, plain_check};
ghost use Rattle.word.specs.Word.{digit_separator, mantissa_radix};
ghost use Rattle.reader.specs.Place.{is_separator};

use word::format_flags::Format;

pub mod block;
pub mod column;
pub mod count;
pub mod digit_run;
pub mod fresh;
pub mod here;
pub mod next;
pub mod next_all;
pub mod over;
pub mod peek;
pub mod plain;
pub mod read;
pub mod reply;
pub mod run_end;
pub mod sheets;
pub mod spaced;
pub mod state;
pub mod zeros;

// The full check of a word: 0 where it is accepted, else the first line that fails, 1 to 14.
#[unsafe(no_mangle)]
pub extern "C" fn pawhetino_format_error(lo: u64, hi: u64) -> u32
    ensures { result ≡ full_check (record { lo = lo; hi = hi }) }
{
    let format = Format { lo, hi };
    format.error().number()
}

// The plain check, of words from before separators: 0, or 1 to 6, or 15.
#[unsafe(no_mangle)]
pub extern "C" fn pawhetino_plain_format_error(lo: u64, hi: u64) -> u32
    ensures { result ≡ plain_check (record { lo = lo; hi = hi }) }
{
    let format = Format { lo, hi };
    word::not_feature_format::format_error_impl(format).number()
}

// Whether a byte is a digit of a radix.
#[unsafe(no_mangle)]
pub extern "C" fn pawhetino_char_is_digit_const(c: u8, radix: u32) -> bool
    ensures { result ≡ is_digit c radix }
{
    word::digit::char_is_digit_const(c, radix)
}

// Whether a byte is valid ASCII: hex 09 to 0D and 20 to 7E.
#[unsafe(no_mangle)]
pub extern "C" fn pawhetino_is_valid_ascii(c: u8) -> bool
    ensures { result ≡ valid_ascii c }
{
    word::ascii::is_valid_ascii(c)
}

// Whether a byte is a digit of a word's mantissa radix.
#[unsafe(no_mangle)]
pub extern "C" fn pawhetino_is_digit(lo: u64, hi: u64, c: u8) -> bool
    ensures { result ≡ is_digit c (mantissa_radix (record { lo = lo; hi = hi })) }
{
    let format = Format { lo, hi };
    reader::skip::is_digit(format, c)
}

// Whether a byte is a word's digit separator.
#[unsafe(no_mangle)]
pub extern "C" fn pawhetino_is_digit_separator(lo: u64, hi: u64, c: u8) -> bool
    ensures { result ≡ is_separator (digit_separator (record { lo = lo; hi = hi })) c }
{
    let format = Format { lo, hi };
    reader::skip::is_digit_separator(format, c)
}
