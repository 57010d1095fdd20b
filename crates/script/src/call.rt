// A call of a reader, and what its line shows of the answer.
ghost use Rattle.std.specs.Prelude.{◌≡◌, [], ◌∷◌};
ghost use Rattle.reader.specs.Reading.{reading_on};
ghost use Rattle.reader.specs.History.{answer_to};
ghost use Rattle.script.specs.Decimal.{decimal};
ghost use Rattle.script.specs.Reply.{call_by, call_number, number_shown, block_shown, read_shown, zeros_shown, shown_in, replied_as, reply_of};

use crate::record::Call;
use reader::answer::{Answer, Read};
use reader::iterator::{read_if_value_cased, skip_zeros};
use reader::skip::{next, peek, take_n};
use reader::state::{Reader, Refusal, State};

// What stands behind the kind: a number (the byte, or how many zeros), `-`, `none`, or a refusal's number, which is all that an outcome
// of the definitions tells of it.
#[derive(Clone, Copy, Debug, PartialEq, Eq)]
pub enum Shown {
    Number(usize),
    Dash,
    NoBlock,
    Refused(u32),
}

#[derive(Clone, Copy, Debug, PartialEq, Eq)]
pub struct Reply {
    pub shown: Shown,
    pub taken: usize,
    pub passed: usize,
    pub state: State,
}

// How what a call found is shown.
trait Shows {
    ghost use Rattle.script.specs.declared.call.Shown.{Shown};

    ghost shown: { Self → Shown };

    fn shown(self) -> Shown
        ensures { result ≡ shown self };
}

impl Shows for Option<u8> {
    ghost shown = { number_shown };

    fn shown(self) -> Shown {
        match self {
            Some(b) => Shown::Number(usize::from(b)),
            None => Shown::Dash,
        }
    }
}

impl Shows for Read {
    ghost shown = { read_shown };

    fn shown(self) -> Shown {
        match self {
            Read::Taken(b) => Shown::Number(usize::from(b)),
            Read::Declined(_) | Read::End => Shown::Dash,
        }
    }
}

// How many zeros.
impl Shows for usize {
    ghost shown = { zeros_shown };

    fn shown(self) -> Shown {
        Shown::Number(self)
    }
}

// How long a block is, if there is one.
impl Shows for Option<usize> {
    ghost shown = { block_shown };

    fn shown(self) -> Shown {
        match self {
            Some(_) => Shown::Dash,
            None => Shown::NoBlock,
        }
    }
}

fn shown_of<T: Shows>(found: Result<T, Refusal>) -> Shown
    ensures { result ≡ shown_in T.shown found }
{
    match found {
        Ok(found) => found.shown(),
        Err(refusal) => Shown::Refused(refusal.number()),
    }
}

fn replied<T: Shows>(a: Answer<Result<T, Refusal>>) -> Reply
    ensures { result ≡ replied_as T.shown a }
{
    let report = a.report;
    Reply {
        shown: shown_of(report.found),
        taken: report.taken,
        passed: report.passed,
        state: a.state,
    }
}

// Makes the call, as the word of the state says.
pub fn reply_to(text: &[u8], state: State, who: Reader, call: Call) -> Reply
    ensures { result ≡ reply_of (answer_to reading_on text.now state (call_by call who)) }
{
    match call {
        Call::Peek => replied(peek(text, state, who)),
        Call::Take => replied(next(text, state, who)),
        Call::Read(value) => replied(read_if_value_cased(text, state, who, value)),
        Call::ZeroSkip => replied(skip_zeros(text, state, who)),
        Call::Block(n) => replied(take_n(text, state, who, n as usize)),
    }
}

// The digit of the call's kind, which begins its line.
#[tactic(auto, unfolding(crate::specs::Decimal::decimal))]
pub fn kind_digit(call: Call) -> u8
    ensures { decimal (call_number call) ≡ result ∷ [] }
{
    match call {
        Call::Peek => b'2',
        Call::Take => b'3',
        Call::Read(_) => b'4',
        Call::ZeroSkip => b'5',
        Call::Block(_) => b'6',
    }
}
