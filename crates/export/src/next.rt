// A take.
ghost use Rattle.std.specs.Prelude.{◌≡◌};
ghost use Rattle.export.specs.State.{state_words};
ghost use Rattle.export.specs.Answer.{byte_words};
ghost use Rattle.export.specs.Calls.{taken_by};

use crate::here::{Here, answer_none, found_here, own_bits, own_flags, put_at};
use crate::over::over_here;
use crate::reply::served;
use crate::state::format_in;
use reader::skip::next;
use word::digit::char_is_digit_by_table;
use word::format_flags::mantissa_radix_byte;

// As the reader answers it.
fn next_any(s: &[u8], reader: u8, state: &mut [u64; 8], answer: &mut [u64; 4]) -> u32
    ensures number { result ≡ (taken_by reader state.old s.now).refusal }
    ensures moved { state.new ≡ state_words state.old (taken_by reader state.old s.now).state }
    ensures written { answer.new ≡ byte_words answer.old (taken_by reader state.old s.now) }
{
    served(
        reader,
        &mut *state,
        &mut *answer,
        |here, x| next(s, here, x),
    )
}

// The byte under the reader's cursor, after passing what the reader may pass, and the cursor moves past it; a digit is counted.
#[unsafe(no_mangle)]
pub extern "C" fn pawhetino_next(
    s: &[u8],
    reader: u8,
    state: &mut [u64; 8],
    answer: &mut [u64; 4],
) -> u32
    ensures number { result ≡ (taken_by reader state.old s.now).refusal }
    ensures moved { state.new ≡ state_words state.old (taken_by reader state.old s.now).state }
    ensures written { answer.new ≡ byte_words answer.old (taken_by reader state.old s.now) }
{
    let here = found_here(s, reader, &*state);
    match here {
        Here::Byte(b) => {
            let format = format_in(&*state);
            let cursor = state[2];
            let counted = own_flags(own_bits(format.lo, reader)).has_any()
                & char_is_digit_by_table(b, mantissa_radix_byte(format));
            let past = cursor + 1;
            let byte = u64::from(b);
            *answer = [1, byte, 1, 0];
            put_at(&mut *state, reader, counted, past);
            0
        }
        Here::End => answer_none(&mut *answer),
        Here::Separator => {
            if over_here(s, reader, &mut *state, &mut *answer, true) {
                return 0;
            }
            next_any(&s[..], reader, &mut *state, &mut *answer)
        }
        Here::Other => next_any(&s[..], reader, &mut *state, &mut *answer),
    }
}
