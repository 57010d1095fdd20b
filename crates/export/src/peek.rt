// The byte under the cursor.
ghost use Rattle.std.specs.Prelude.{◌≡◌};
ghost use Rattle.export.specs.State.{state_words};
ghost use Rattle.export.specs.Answer.{byte_words};
ghost use Rattle.export.specs.Calls.{peeked_by};

use crate::here::{Here, answer_none, found_here, stay};
use crate::over::over_here;
use crate::reply::served;
use reader::skip::peek;

// As the reader answers it.
fn peek_any(s: &[u8], reader: u8, state: &mut [u64; 8], answer: &mut [u64; 4]) -> u32
    ensures number { result ≡ (peeked_by reader state.old s.now).refusal }
    ensures moved { state.new ≡ state_words state.old (peeked_by reader state.old s.now).state }
    ensures written { answer.new ≡ byte_words answer.old (peeked_by reader state.old s.now) }
{
    served(
        reader,
        &mut *state,
        &mut *answer,
        |here, x| peek(s, here, x),
    )
}

// The byte under the reader's cursor, after passing what the reader may pass.
#[unsafe(no_mangle)]
pub extern "C" fn pawhetino_peek(
    s: &[u8],
    reader: u8,
    state: &mut [u64; 8],
    answer: &mut [u64; 4],
) -> u32
    ensures number { result ≡ (peeked_by reader state.old s.now).refusal }
    ensures moved { state.new ≡ state_words state.old (peeked_by reader state.old s.now).state }
    ensures written { answer.new ≡ byte_words answer.old (peeked_by reader state.old s.now) }
{
    let here = found_here(s, reader, &*state);
    match here {
        Here::Byte(b) => {
            let byte = u64::from(b);
            stay([1, byte, 0, 0], &mut *answer)
        }
        Here::End => answer_none(&mut *answer),
        Here::Separator => {
            if over_here(s, reader, &mut *state, &mut *answer, false) {
                return 0;
            }
            peek_any(&s[..], reader, &mut *state, &mut *answer)
        }
        Here::Other => peek_any(&s[..], reader, &mut *state, &mut *answer),
    }
}
