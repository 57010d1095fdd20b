// The plain reader, which passes nothing and whose state is a cursor alone.
ghost use Rattle.std.specs.Prelude.{◌≡◌};
ghost use Rattle.reader.specs.Plain.{plain_outcome_of};
ghost use Rattle.export.specs.Plain.{plain_peeked_by, plain_taken_by, plain_words};
ghost use Rattle.export.specs.Code.Plain.{IsPlainServed};

use crate::here::answer_none;
use reader::noskip;
use reader::state::Reader;

// Writes an answer to the caller's words, and returns its number. Each arm writes its own words: by `told_of` and `put_told` a call took
// some fifteen instructions more, of twenty.
fn put_plain(answered: noskip::Answer, cursor: &mut usize, answer: &mut [u64; 4]) -> u32
    ensures number { result ≡ (plain_outcome_of answered).refusal }
    ensures moved { cursor.new ≡ (plain_outcome_of answered).cursor }
    ensures written { answer.new ≡ plain_words answer.old (plain_outcome_of answered) }
{
    let old = answer[1];
    let report = answered.report;
    let taken = report.taken as u64;
    let passed = report.passed as u64;
    *cursor = answered.cursor.cursor;
    let found = report.found;
    match found {
        Ok(Some(b)) => {
            let byte = u64::from(b);
            *answer = [1, byte, taken, passed];
            0
        }
        Ok(None) => {
            *answer = [0, old, taken, passed];
            0
        }
        Err(error) => {
            *answer = [0, old, taken, passed];
            error.number()
        }
    }
}

// A call by the reader that is named, at the caller's cursor.
fn plain_served<F: FnOnce(noskip::Cursor, Reader) -> noskip::Answer>(
    reader: u8,
    cursor: &mut usize,
    answer: &mut [u64; 4],
    call: F,
) -> u32
    requires { F.IsAlwaysCallable call }
    ensures { IsPlainServed (F.post call (record { cursor = cursor.old })) reader cursor.old answer.old result cursor.new answer.new }
{
    let by = Reader::try_from(reader);
    match by {
        Ok(x) => {
            let here = noskip::Cursor { cursor: *cursor };
            put_plain(call(here, x), &mut *cursor, &mut *answer)
        }
        Err(unknown) => {
            answer_none(&mut *answer);
            unknown.number()
        }
    }
}

// The byte under the plain reader's cursor.
#[unsafe(no_mangle)]
pub extern "C" fn pawhetino_plain_peek(
    s: &[u8],
    reader: u8,
    cursor: &mut usize,
    answer: &mut [u64; 4],
) -> u32
    ensures number { result ≡ (plain_peeked_by reader cursor.old s.now).refusal }
    ensures moved { cursor.new ≡ (plain_peeked_by reader cursor.old s.now).cursor }
    ensures written { answer.new ≡ plain_words answer.old (plain_peeked_by reader cursor.old s.now) }
{
    plain_served(
        reader,
        &mut *cursor,
        &mut *answer,
        |here, x| noskip::peek(s, here, x),
    )
}

// The same, and the cursor moves past the byte.
#[unsafe(no_mangle)]
pub extern "C" fn pawhetino_plain_next(
    s: &[u8],
    reader: u8,
    cursor: &mut usize,
    answer: &mut [u64; 4],
) -> u32
    ensures number { result ≡ (plain_taken_by reader cursor.old s.now).refusal }
    ensures moved { cursor.new ≡ (plain_taken_by reader cursor.old s.now).cursor }
    ensures written { answer.new ≡ plain_words answer.old (plain_taken_by reader cursor.old s.now) }
{
    plain_served(
        reader,
        &mut *cursor,
        &mut *answer,
        |here, x| noskip::next(s, here, x),
    )
}
