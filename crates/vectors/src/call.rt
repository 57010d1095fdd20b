// A recorded call of a reader, made anew: the record's fields are packed numbers.
ghost use Rattle.std.specs.Prelude.{◌≡◌, ℕ};
ghost use Rattle.cells.specs.DigitRun.{run_outcome_of};
ghost use Rattle.vectors.specs.Call.{value_or_none, read_first, value_first, block_or_none, first_in, with_state, packed_as, packed_part, packed_value};
ghost use Rattle.vectors.specs.Call.{state_of, answer_to, repeated_of};

use crate::packed::{pushed, with_byte};
use cells::digit_run::{Run, digit_run};
use reader::answer::{Answer, Read};
use reader::iterator::{read_if_value_cased, skip_zeros};
use reader::skip::{next, next_all, peek, take_n, take_n_part};
use reader::state::{ExponentCount, FractionCount, IntegerCount, Numbered, Reader, State};
use word::format_flags::Format;

#[tactic(auto, unfolding(crate::specs::Call::state_of, crate::specs::Packed::byte_of))]
fn state_of(what: u64, format: Format) -> State
    ensures { result ≡ state_of what format }
{
    let asked = what.to_be_bytes();
    State {
        format,
        cursor: usize::from(asked[3]),
        integer: IntegerCount(usize::from(asked[4])),
        fraction: FractionCount(usize::from(asked[5])),
        exponent: ExponentCount(usize::from(asked[6])),
    }
}

// With the bytes of an answer behind its first two.
fn packed_state(first: u64, state: State, taken: usize, passed: usize) -> u64
    ensures { result ≡ with_state first state taken passed }
{
    let moved = pushed(pushed(first, state.cursor), passed);
    let counts = pushed(pushed(moved, state.integer.0), state.fraction.0);
    pushed(pushed(counts, state.exponent.0), taken)
}

// How a recorded answer begins: its first two bytes, by what the call found.
trait Begins {
    ghost first: { Self → ℕ };

    fn first(self) -> u64
        ensures { result ≡ first self };
}

// A byte, or none.
impl Begins for Option<u8> {
    ghost first = { value_or_none };

    fn first(self) -> u64 {
        match self {
            Some(b) => pushed(1, usize::from(b)),
            None => 0,
        }
    }
}

impl Begins for Read {
    ghost first = { read_first };

    fn first(self) -> u64 {
        match self {
            Read::Taken(b) => pushed(1, usize::from(b)),
            Read::Declined(b) => pushed(3, usize::from(b)),
            Read::End => 0,
        }
    }
}

// How many zeros.
impl Begins for usize {
    ghost first = { value_first };

    fn first(self) -> u64 {
        pushed(1, self)
    }
}

// How long a block is, if there is one.
impl Begins for Option<usize> {
    ghost first = { block_or_none };

    fn first(self) -> u64 {
        match self {
            Some(_) => pushed(1, 0),
            None => 0,
        }
    }
}

// The value of a run.
impl Begins for u64 {
    ghost first = { value_first };

    fn first(self) -> u64 {
        pushed(1, self as usize)
    }
}

fn first_of<T: Begins, E: Numbered>(found: Result<T, E>) -> u64
    ensures { result ≡ first_in T.first E.number_as found }
{
    match found {
        Ok(found) => found.first(),
        Err(error) => pushed(2, error.told_number() as usize),
    }
}

fn pack<T: Begins, E: Numbered>(a: Answer<Result<T, E>>) -> u64
    ensures { result ≡ packed_as T.first E.number_as a }
{
    let report = a.report;
    packed_state(first_of(report.found), a.state, report.taken, report.passed)
}

// The whole value of a run, and 0 where it is refused.
fn pack_value(a: Answer<Run>) -> u64
    ensures { result ≡ packed_value (run_outcome_of a) }
{
    a.report.found.unwrap_or(0)
}

// Of a part of eight bytes the length is shifted out.
fn pack_part(part: &[u8]) -> u64
    ensures { result ≡ packed_part part.now }
{
    let mut packed = part.len() as u64;
    for byte in part {
        packed = with_byte(packed, *byte);
    }
    packed
}

// The packed answer to a call, by its kind: 0 peek, 1 take, 2 read of one value, 3 takes to the end, 4 zero skip, 5 block take, 6 the
// part that a block is, 7 digit run, 8 the value of a digit run. An enum of the kinds would be a second table of the same nine.
//
// The answer has whether there was a byte or a block (1 for a zero skip or a digit run, 2 where the call was refused, 3 where a read
// declined the byte), the byte, how many zeros or the value's lowest byte (the refusal's number), the cursor, what was passed, the three
// counts, and what was taken. Of a block's part instead its length and its bytes, the last one lowest; of a run's value that number.
fn answer_to(kind: u8, s: &[u8], state: State, who: Reader, value: u8) -> Option<u64>
    ensures { result ≡ answer_to kind s.now state who value }
{
    match kind {
        0 => Some(pack(peek(s, state, who))),
        1 => Some(pack(next(s, state, who))),
        2 => Some(pack(read_if_value_cased(s, state, who, value))),
        3 => Some(pack(next_all(s, state, who))),
        4 => Some(pack(skip_zeros(s, state, who))),
        5 => Some(pack(take_n(s, state, who, usize::from(value)))),
        6 => Some(pack_part(take_n_part(s, state, who, usize::from(value)))),
        7 => Some(pack(digit_run(s, state, who))),
        8 => Some(pack_value(digit_run(s, state, who))),
        _ => None,
    }
}

// The call that `what` describes: its kind, the reader, the buffer's length, the cursor, the three counts, and a value, which is
// a read's byte or a block's size. Each byte is asked for by its place, since each has one use.
pub fn repeat(what: u64, format: Format, bytes: u64) -> Option<u64>
    ensures { result ≡ repeated_of what format bytes }
{
    let buffer = bytes.to_le_bytes();
    let whole: &[u8] = &buffer;
    let asked = what.to_be_bytes();
    let end = usize::from(asked[2]);
    if end > whole.len() {
        return None;
    }
    let reader = Reader::try_from(asked[1]).ok()?;
    answer_to(
        asked[0],
        &whole[0..end],
        state_of(what, format),
        reader,
        asked[7],
    )
}
