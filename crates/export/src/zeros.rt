// The zero skip.
ghost use Rattle.std.specs.Prelude.{◌≡◌};
ghost use Rattle.export.specs.State.{state_words};
ghost use Rattle.export.specs.Answer.{zeros_words};
ghost use Rattle.export.specs.Calls.{skipped_by};
ghost use Rattle.export.specs.Code.Reply.{zeros_told};

use crate::here::{Here, found_here, stay};
use crate::reply::{Tell, Told, served};
use reader::iterator::skip_zeros;

// How many zeros were taken.
impl Tell for usize {
    ghost told_as = { zeros_told };

    fn told(self) -> Told {
        Told {
            how: 0,
            value: Some(self as u64),
        }
    }
}

// The answer that there is no zero.
const NO_ZEROS: [u64; 4] = [0, 0, 0, 0];

// As the reader answers it.
fn skip_any(s: &[u8], reader: u8, state: &mut [u64; 8], answer: &mut [u64; 4]) -> u32
    ensures number { result ≡ (skipped_by reader state.old s.now).refusal }
    ensures moved { state.new ≡ state_words state.old (skipped_by reader state.old s.now).state }
    ensures written { answer.new ≡ zeros_words answer.old (skipped_by reader state.old s.now) }
{
    served(
        reader,
        &mut *state,
        &mut *answer,
        |here, x| skip_zeros(s, here, x),
    )
}

// Takes the zeros under the cursor, each of which is counted, until a read of one fails. Taken and passed are the sums of its reads.
// Most cells begin with another digit.
#[unsafe(no_mangle)]
pub extern "C" fn pawhetino_skip_zeros(
    s: &[u8],
    reader: u8,
    state: &mut [u64; 8],
    answer: &mut [u64; 4],
) -> u32
    ensures number { result ≡ (skipped_by reader state.old s.now).refusal }
    ensures moved { state.new ≡ state_words state.old (skipped_by reader state.old s.now).state }
    ensures written { answer.new ≡ zeros_words answer.old (skipped_by reader state.old s.now) }
{
    let here = found_here(s, reader, &*state);
    match here {
        Here::Byte(b) => {
            let zero = b == b'0';
            if zero {
                return skip_any(&s[..], reader, &mut *state, &mut *answer);
            }
            stay(NO_ZEROS, &mut *answer)
        }
        Here::End => stay(NO_ZEROS, &mut *answer),
        Here::Separator | Here::Other => skip_any(&s[..], reader, &mut *state, &mut *answer),
    }
}
