// The quick way of a peek and a take at a separator: mostly it stands right before a digit, in a cell whose reader has counted and may
// pass between digits. That one separator is then passed, whatever the other flags are.
ghost use Rattle.std.specs.Prelude.{◌≡◌, cond, ◌+◌, ◌<◌, ◌≤◌, length, slice_index};
ghost use Rattle.word.specs.Word.{flag};
ghost use Rattle.export.specs.Code.Over.{is_over, over_state, over_answer};

use crate::here::{put_at, put_place};
use crate::state::format_in;
use word::digit::char_is_digit_by_range;
use word::format_flags::{
    Format, INTEGER_CONSECUTIVE_DIGIT_SEPARATOR, INTEGER_INTERNAL_DIGIT_SEPARATOR, bit_at,
    mantissa_radix_byte,
};

// Whether the reader has a flag, of which `first` is the integer reader's: that one bit of the word, where `own_flags` reads out four.
fn has_flag(format: Format, first: u32, reader: u8) -> bool
    requires { (first ≤ 41) × (reader ≤ 2) }
    ensures { result ≡ flag format (first + reader) }
{
    let position = first + u32::from(reader);
    bit_at(format.lo, position)
}

// Whether the reader may pass between digits.
pub(crate) fn has_internal(format: Format, reader: u8) -> bool
    requires { reader ≤ 2 }
    ensures { result ≡ flag format (32 + reader) }
{
    has_flag(format, INTEGER_INTERNAL_DIGIT_SEPARATOR, reader)
}

// Whether it passes several separators at once.
pub(crate) fn has_consecutive(format: Format, reader: u8) -> bool
    requires { reader ≤ 2 }
    ensures { result ≡ flag format (41 + reader) }
{
    has_flag(format, INTEGER_CONSECUTIVE_DIGIT_SEPARATOR, reader)
}

fn is_over(s: &[u8], reader: u8, state: &[u64; 8]) -> bool
    requires { (reader ≤ 2) × (slice_index state.now 2 < length s.now) }
    ensures { result ≡ is_over reader state.now s.now }
{
    let format = format_in(state);
    let separator = format.digit_separator();
    let own = 3 + usize::from(reader);
    let count = state[own];
    if (separator == 0) | (count == 0) {
        return false;
    }
    let internal = has_internal(format, reader);
    if !internal {
        return false;
    }
    let next = state[2] as usize + 1;
    if s.len() <= next {
        return false;
    }
    let c = s[next];
    let double = c == separator;
    if double {
        return false;
    }
    char_is_digit_by_range(c, mantissa_radix_byte(format))
}

// Passes the separator under the cursor and sees the digit behind it, which a take takes: whether it is so; if not, nothing is written.
// A flag and no closure for what is done with the digit: one of the two arms would be all that a caller leaves out.
pub(crate) fn over_here(
    s: &[u8],
    reader: u8,
    state: &mut [u64; 8],
    answer: &mut [u64; 4],
    takes: bool,
) -> bool
    requires { (reader ≤ 2) × ((slice_index state.old 2 < length s.now) × (slice_index state.old (3 + reader) ≤ slice_index state.old 2)) }
    ensures over { result ≡ is_over reader state.old s.now }
    ensures moved { state.new ≡ cond result (over_state reader state.old takes) state.old }
    ensures written { answer.new ≡ cond result (over_answer state.old s.now takes) answer.old }
{
    let over = is_over(s, reader, &*state);
    if !over {
        return false;
    }
    let next = state[2] + 1;
    let c = s[next as usize];
    let byte = u64::from(c);
    if takes {
        let past = next + 1;
        *answer = [1, byte, 1, 1];
        put_at(&mut *state, reader, true, past);
        return true;
    }
    *answer = [1, byte, 0, 1];
    put_place(&mut *state, next);
    true
}
