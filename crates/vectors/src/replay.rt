// Asks our library what a record asked, and compares the answers.
ghost use Rattle.std.specs.Prelude.{◌≡◌, cond};
ghost use Rattle.word.specs.Check.{full_check, plain_check};
ghost use Rattle.word.specs.Digit.{is_digit};
ghost use Rattle.vectors.specs.Replay.{verdict, beside, verdict_of, word_verdict, digit_verdict, call_verdict, run_end_verdict};

use crate::call::repeat;
use crate::record::{Kind, Record};
use crate::run_end::search_again;
use word::format_flags::Format;

// How many digits the fields of each kind have. Each kind tests its own shape where it takes its fields: one test for all that answers by
// `?` was tried, and its proof did not close.
const WORD_SHAPE: u64 = 0x10_10_02_02;

const DIGIT_SHAPE: u64 = 0x02_08_01;

const CALL_SHAPE: u64 = 0x10_10_10_10_10;

const RUN_END_SHAPE: u64 = 0x10_10_10_10_10_10_10;

// Which answer of a record it is.
#[derive(Clone, Copy, Debug, PartialEq, Eq)]
pub enum Answer {
    Full,
    Plain,
    Digit,
    Call,
    RunEnd,
}

#[derive(Clone, Copy, Debug, PartialEq, Eq)]
pub struct Difference {
    pub answer: Answer,
    pub recorded: u64,
    pub answered: u64,
}

// Why a line is not one whose answers are the same. Of several answers that differ the first is given.
#[derive(Clone, Copy, Debug, PartialEq, Eq)]
pub enum Fault {
    Differs(Difference),
    NoRecord,
}

// Compares what a record says with what our library says.
pub fn compare(parsed: Option<Record>) -> Result<(), Fault>
    ensures { result ≡ verdict_of parsed }
{
    let record = parsed.ok_or(Fault::NoRecord)?;
    match record.kind {
        Kind::Word => compare_word(record),
        Kind::Digit => compare_digit(record),
        Kind::Call => compare_call(record),
        Kind::RunEnd => compare_run_end(record),
    }
}

fn compare_call(parsed: Record) -> Result<(), Fault>
    ensures { result ≡ call_verdict parsed }
{
    if parsed.shape != CALL_SHAPE {
        return Err(Fault::NoRecord);
    }
    let values = parsed.values;
    let format = Format {
        lo: values[1],
        hi: values[2],
    };
    let repeated = repeat(values[0], format, values[3]);
    beside(Answer::Call, values[4], repeated)
}

fn compare_run_end(parsed: Record) -> Result<(), Fault>
    ensures { result ≡ run_end_verdict parsed }
{
    if parsed.shape != RUN_END_SHAPE {
        return Err(Fault::NoRecord);
    }
    let values = parsed.values;
    let numbers = [values[1], values[2], values[3], values[4], values[5]];
    let repeated = search_again(values[0], numbers);
    beside(Answer::RunEnd, values[6], repeated)
}

// What asks for no call is no record.
fn beside(answer: Answer, recorded: u64, repeated: Option<u64>) -> Result<(), Fault>
    ensures { result ≡ beside answer recorded repeated }
{
    let answered = repeated.ok_or(Fault::NoRecord)?;
    settle(answer, recorded, answered)
}

fn compare_word(parsed: Record) -> Result<(), Fault>
    ensures { result ≡ word_verdict parsed }
{
    if parsed.shape != WORD_SHAPE {
        return Err(Fault::NoRecord);
    }
    let values = parsed.values;
    let format = Format {
        lo: values[0],
        hi: values[1],
    };
    let full = settle(Answer::Full, values[2], full_answer(format));
    let plain = settle(Answer::Plain, values[3], plain_answer(format));
    full.and(plain)
}

fn full_answer(format: Format) -> u64
    ensures { result ≡ full_check format }
{
    u64::from(format.error().number())
}

fn plain_answer(format: Format) -> u64
    ensures { result ≡ plain_check format }
{
    u64::from(word::not_feature_format::format_error_impl(format).number())
}

// The shape bounds both numbers already; to test them here spares a proof of that.
fn compare_digit(parsed: Record) -> Result<(), Fault>
    ensures { result ≡ digit_verdict parsed }
{
    if parsed.shape != DIGIT_SHAPE {
        return Err(Fault::NoRecord);
    }
    let values = parsed.values;
    let byte = u8::try_from(values[0]).map_err(|_| Fault::NoRecord)?;
    let radix = u32::try_from(values[1]).map_err(|_| Fault::NoRecord)?;
    settle(Answer::Digit, values[2], digit_answer(byte, radix))
}

fn digit_answer(byte: u8, radix: u32) -> u64
    ensures { result ≡ cond (is_digit byte radix) 1 0 }
{
    u64::from(word::digit::char_is_digit_const(byte, radix))
}

fn settle(answer: Answer, recorded: u64, answered: u64) -> Result<(), Fault>
    ensures { result ≡ verdict answer recorded answered }
{
    if recorded == answered {
        return Ok(());
    }
    Err(Fault::Differs(Difference {
        answer,
        recorded,
        answered,
    }))
}
