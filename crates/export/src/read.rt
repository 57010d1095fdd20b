// Conditional reads.
ghost use Rattle.std.specs.Prelude.{◌≡◌, nat_eq, [], ◌∷◌};
ghost use Rattle.word.specs.ByteSet.{member};
ghost use Rattle.export.specs.State.{state_words};
ghost use Rattle.export.specs.Answer.{read_words};
ghost use Rattle.export.specs.Calls.{read_by, set_in};
ghost use Rattle.export.specs.Code.Here.{place_words};

use crate::here::{Here, answer_none, found_here, put_place, stay};
use crate::reply::served;
use reader::iterator::{read_if, read_if_value_cased};
use word::byte_set::ByteSet;
use word::format_flags::bit_at;

fn set_in(set: &[u64; 4]) -> ByteSet
    ensures { result ≡ set_in set.now }
{
    ByteSet { bits: *set }
}

// Whether a byte is in the set that the caller lends, looked up where it lies: a `ByteSet` would be copied to be asked.
fn has_byte(set: &[u64; 4], b: u8) -> bool
    ensures { result ≡ member (set_in set.now) b }
{
    let at = usize::from(b / 64);
    bit_at(set[at], u32::from(b % 64))
}

// As the reader answers it.
fn read_any(
    s: &[u8],
    reader: u8,
    state: &mut [u64; 8],
    answer: &mut [u64; 4],
    set: &[u64; 4],
) -> u32
    ensures number { result ≡ (read_by reader state.old s.now (member (set_in set.now))).outcome.refusal }
    ensures moved { state.new ≡ state_words state.old (read_by reader state.old s.now (member (set_in set.now))).outcome.state }
    ensures written { answer.new ≡ read_words answer.old (read_by reader state.old s.now (member (set_in set.now))) }
{
    let wanted = set_in(set);
    served(
        reader,
        &mut *state,
        &mut *answer,
        |here, x| read_if(s, here, x, wanted),
    )
}

// The same for one byte.
fn read_value_any(
    s: &[u8],
    reader: u8,
    state: &mut [u64; 8],
    answer: &mut [u64; 4],
    value: u8,
) -> u32
    ensures number { result ≡ (read_by reader state.old s.now (λ b. nat_eq b value)).outcome.refusal }
    ensures moved { state.new ≡ state_words state.old (read_by reader state.old s.now (λ b. nat_eq b value)).outcome.state }
    ensures written { answer.new ≡ read_words answer.old (read_by reader state.old s.now (λ b. nat_eq b value)) }
{
    served(
        reader,
        &mut *state,
        &mut *answer,
        |here, x| read_if_value_cased(s, here, x, value),
    )
}

// Takes the byte under the cursor, uncounted.
fn take_here(b: u8, state: &mut [u64; 8], answer: &mut [u64; 4], past: u64) -> u32
    ensures number { result ≡ 0 }
    ensures moved { state.new ≡ place_words state.old past }
    ensures written { answer.new ≡ (1 ∷ b ∷ 1 ∷ 0 ∷ []) }
{
    let byte = u64::from(b);
    *answer = [1, byte, 1, 0];
    put_place(&mut *state, past);
    0
}

// Declines the byte under the cursor: it is told, and nothing is taken.
fn decline_here(b: u8, answer: &mut [u64; 4]) -> u32
    ensures number { result ≡ 0 }
    ensures written { answer.new ≡ (2 ∷ b ∷ 0 ∷ 0 ∷ []) }
{
    let byte = u64::from(b);
    stay([2, byte, 0, 0], &mut *answer)
}

// Takes the byte, uncounted, where it is in the set of 256 bits, the lowest 64 first. Where it is not, the byte is told as declined, and
// the passing stays.
#[unsafe(no_mangle)]
pub extern "C" fn pawhetino_read_if(
    s: &[u8],
    reader: u8,
    state: &mut [u64; 8],
    answer: &mut [u64; 4],
    set: &[u64; 4],
) -> u32
    ensures number { result ≡ (read_by reader state.old s.now (member (set_in set.now))).outcome.refusal }
    ensures moved { state.new ≡ state_words state.old (read_by reader state.old s.now (member (set_in set.now))).outcome.state }
    ensures written { answer.new ≡ read_words answer.old (read_by reader state.old s.now (member (set_in set.now))) }
{
    let here = found_here(s, reader, &*state);
    match here {
        Here::Byte(b) => {
            let wanted = has_byte(set, b);
            if !wanted {
                return decline_here(b, &mut *answer);
            }
            let past = state[2] + 1;
            take_here(b, &mut *state, &mut *answer, past)
        }
        Here::End => answer_none(&mut *answer),
        // Two calls alike: one alone would be compiled into this function, and what it needs made ready on the quick way too.
        Here::Separator => read_any(&s[..], reader, &mut *state, &mut *answer, set),
        Here::Other => read_any(&s[..], reader, &mut *state, &mut *answer, set),
    }
}

// The same for one byte.
#[unsafe(no_mangle)]
pub extern "C" fn pawhetino_read_if_value_cased(
    s: &[u8],
    reader: u8,
    state: &mut [u64; 8],
    answer: &mut [u64; 4],
    value: u8,
) -> u32
    ensures number { result ≡ (read_by reader state.old s.now (λ b. nat_eq b value)).outcome.refusal }
    ensures moved { state.new ≡ state_words state.old (read_by reader state.old s.now (λ b. nat_eq b value)).outcome.state }
    ensures written { answer.new ≡ read_words answer.old (read_by reader state.old s.now (λ b. nat_eq b value)) }
{
    let here = found_here(s, reader, &*state);
    match here {
        Here::Byte(b) => {
            if b != value {
                return decline_here(b, &mut *answer);
            }
            let past = state[2] + 1;
            take_here(b, &mut *state, &mut *answer, past)
        }
        Here::End => answer_none(&mut *answer),
        Here::Separator => read_value_any(&s[..], reader, &mut *state, &mut *answer, value),
        Here::Other => read_value_any(&s[..], reader, &mut *state, &mut *answer, value),
    }
}
