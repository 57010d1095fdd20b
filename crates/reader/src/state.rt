// The state of a cursor: a format word, the cursor, and the digits that each reader has counted; and when a state is refused.
ghost use Rattle.std.specs.Prelude.{◌≡◌, ◌+◌, ◌^◌, ◌<◌, nat_le, ok_or};
ghost use Rattle.reader.specs.State.{reader_named, fresh_of, is_counted, count_of, count_sum, moved_to, counted_by};
ghost use Rattle.reader.specs.Code.TakeSums.{counts_digits, with_count};
ghost use Rattle.reader.specs.Answer.{number_of, refusal_in};
ghost use Rattle.reader.specs.Calls.{own_count, line18, consecutive_number, line_consecutive, place_refusal, refusal_with};
ghost use Rattle.reader.specs.ZeroSkip.{skip_refusal};
ghost use Rattle.reader.specs.Block.{block_refusal};

use crate::rule::Flags;
use word::format_flags::Format;

// Who reads: the three readers of digits, each with flags and a count of its own, and the reader of special values.
#[derive(Clone, Copy, Debug, PartialEq, Eq)]
pub enum Reader {
    Integer,
    Fraction,
    Exponent,
    Special,
}

// A number that names no reader.
#[derive(Clone, Copy, Debug, PartialEq, Eq)]
pub struct UnknownReader(pub u8);

impl UnknownReader {
    // Its number in document 01.
    pub fn number(self) -> u32
        ensures { result ≡ 19 }
    {
        19
    }
}

// The digits counted by each reader: a type each, so that none stands for another.
#[derive(Clone, Copy, Debug, PartialEq, Eq)]
pub struct IntegerCount(pub usize);

#[derive(Clone, Copy, Debug, PartialEq, Eq)]
pub struct FractionCount(pub usize);

#[derive(Clone, Copy, Debug, PartialEq, Eq)]
pub struct ExponentCount(pub usize);

#[derive(Clone, Copy, Debug, PartialEq, Eq)]
pub struct State {
    pub format: Format,
    pub cursor: usize,
    pub integer: IntegerCount,
    pub fraction: FractionCount,
    pub exponent: ExponentCount,
}

// Why a call is refused.
#[derive(Clone, Copy, Debug, PartialEq, Eq)]
pub enum Refusal {
    CursorPastEnd = 16,
    CountsExceedCursor = 17,
    SpecialReader = 18,
    ConsecutiveInteger = 12,
    ConsecutiveFraction = 13,
    ConsecutiveExponent = 14,
}

impl Refusal {
    // Its number in document 01. `as` of an enum is its own number.
    pub fn number(self) -> u32
        ensures { result ≡ number_of self }
    {
        self as u32
    }
}

// An error that has a number in the office's log: for functions over every kind of refusal. Each has it as `number` too, for callers that
// know the type.
pub trait Numbered {
    ghost use Rattle.std.specs.Prelude.{ℕ};

    ghost number_as: { Self → ℕ };

    fn told_number(self) -> u32
        ensures { result ≡ number_as self };
}

impl Numbered for Refusal {
    ghost number_as = { number_of };

    fn told_number(self) -> u32 {
        self.number()
    }
}

impl TryFrom<u8> for Reader {
    type Error = UnknownReader;

    ghost try_from_gives = { λ number r. r ≡ ok_or (reader_named number) (record { 0 = number }) };

    #[tactic(auto, unfolding(crate::specs::State::reader_named))]
    fn try_from(number: u8) -> Result<Self, UnknownReader> {
        match number {
            0 => Ok(Reader::Integer),
            1 => Ok(Reader::Fraction),
            2 => Ok(Reader::Exponent),
            3 => Ok(Reader::Special),
            _ => Err(UnknownReader(number)),
        }
    }
}

impl State {
    // A cursor at the start of a buffer, with nothing counted.
    pub fn fresh(format: Format) -> State
        ensures { result ≡ fresh_of format }
    {
        State {
            format,
            cursor: 0,
            integer: IntegerCount(0),
            fraction: FractionCount(0),
            exponent: ExponentCount(0),
        }
    }

    // The reader's own count.
    #[tactic(auto, unfolding(crate::specs::State::count_of))]
    pub fn count(self, reader: Reader) -> usize
        ensures { result ≡ count_of self reader }
    {
        match reader {
            Reader::Integer => self.integer.0,
            Reader::Fraction => self.fraction.0,
            Reader::Exponent => self.exponent.0,
            Reader::Special => 0,
        }
    }
}

// The same state with its cursor at another place. This and what follows take their state or reader first and are no methods: they read alike
// either way, and the proofs and pages name them so.
#[tactic(auto, unfolding(crate::specs::State::moved_to))]
pub fn moved(state: State, cursor: usize) -> State
    ensures { result ≡ moved_to state cursor }
{
    State { cursor, ..state }
}

// The same state with the reader's own count raised by one.
pub(crate) fn counted(state: State, reader: Reader) -> State
    requires { count_sum state + 1 < 2 ^ 64 }
    ensures { result ≡ counted_by state reader }
{
    with_count(state, reader, state.count(reader) + 1)
}

// The same state with another count for the reader.
#[tactic(auto, unfolding(crate::specs::Code::TakeSums::with_count))]
pub fn with_count(state: State, reader: Reader, count: usize) -> State
    ensures { result ≡ with_count state reader count }
{
    match reader {
        Reader::Integer => State {
            integer: IntegerCount(count),
            ..state
        },
        Reader::Fraction => State {
            fraction: FractionCount(count),
            ..state
        },
        Reader::Exponent => State {
            exponent: ExponentCount(count),
            ..state
        },
        Reader::Special => state,
    }
}

// A reader's count. The special reader counts nothing.
pub(crate) fn own_count(reader: Reader, count: usize) -> usize
    ensures { result ≡ own_count reader count }
{
    match reader {
        Reader::Integer | Reader::Fraction | Reader::Exponent => count,
        Reader::Special => 0,
    }
}

// Whether it counts at all.
fn is_counted(reader: Reader) -> bool
    ensures { result ≡ is_counted reader }
{
    !matches!(reader, Reader::Special)
}

// Whether a reader counts the digits that it takes: with any flag, and if it counts at all.
pub(crate) fn counts_digits(flags: Flags, reader: Reader) -> bool
    ensures { result ≡ counts_digits flags reader }
{
    flags.has_any() & is_counted(reader)
}

// Whether the counts together are within the cursor. Nothing is added up, so nothing can overflow.
fn counts_fit(state: State) -> bool
    ensures { result ≡ nat_le (count_sum state) state.cursor }
{
    let cursor = state.cursor;
    let integer = state.integer.0;
    let fraction = state.fraction.0;
    if cursor < integer {
        return false;
    }
    if cursor - integer < fraction {
        return false;
    }
    state.exponent.0 <= cursor - integer - fraction
}

// Tests 16 and 17.
pub(crate) fn admit_place(s: &[u8], state: State) -> Result<(), Refusal>
    ensures { refusal_in result ≡ place_refusal s.now state }
{
    if s.len() < state.cursor {
        return Err(Refusal::CursorPastEnd);
    }
    if !counts_fit(state) {
        return Err(Refusal::CountsExceedCursor);
    }
    Ok(())
}

// Test 18.
fn admit_reader(reader: Reader) -> Result<(), Refusal>
    ensures { refusal_in result ≡ line18 reader }
{
    if !is_counted(reader) {
        return Err(Refusal::SpecialReader);
    }
    Ok(())
}

// The refusal of a reader whose consecutive flag stands alone. The special reader's cannot.
fn consecutive_refusal(reader: Reader) -> Result<(), Refusal>
    ensures { refusal_in result ≡ consecutive_number reader }
{
    match reader {
        Reader::Integer => Err(Refusal::ConsecutiveInteger),
        Reader::Fraction => Err(Refusal::ConsecutiveFraction),
        Reader::Exponent => Err(Refusal::ConsecutiveExponent),
        Reader::Special => Ok(()),
    }
}

// Tests 12 to 14, of the reader's own flags.
fn admit_flags(flags: Flags, reader: Reader) -> Result<(), Refusal>
    ensures { refusal_in result ≡ line_consecutive flags reader }
{
    let alone = flags.is_consecutive_alone();
    if alone {
        return consecutive_refusal(reader);
    }
    Ok(())
}

// Tests 16, 17, then 12 to 14.
pub(crate) fn admit(s: &[u8], state: State, flags: Flags, reader: Reader) -> Result<(), Refusal>
    ensures { refusal_in result ≡ refusal_with flags s.now state reader }
{
    admit_place(s, state)?;
    admit_flags(flags, reader)
}

// Tests 16, 17 and 18: those of a block take.
pub(crate) fn admit_block(s: &[u8], state: State, reader: Reader) -> Result<(), Refusal>
    ensures { refusal_in result ≡ block_refusal s.now state reader }
{
    admit_place(s, state)?;
    admit_reader(reader)
}

// Tests 16, 17, 18, then 12 to 14: those of a zero skip.
pub(crate) fn admit_skip(
    s: &[u8],
    state: State,
    flags: Flags,
    reader: Reader,
) -> Result<(), Refusal>
    ensures { refusal_in result ≡ skip_refusal flags s.now state reader }
{
    admit_place(s, state)?;
    admit_reader(reader)?;
    admit_flags(flags, reader)
}
