// What a reader answered, on the way to a caller's words: the number returned, the state, and an answer of four words, which are
// whether something was found (of a read how it ended), what it is, how many bytes were taken and how many separators passed.
ghost use Rattle.std.specs.Prelude.{◌≡◌, Some};
ghost use Rattle.export.specs.State.{state_in, state_words};
ghost use Rattle.export.specs.declared.reply.Told.{Told};
ghost use Rattle.export.specs.Code.Reply.{byte_told, read_told, nothing_told, number_in, told_in, told_words, reply_of, refused_reply, reply_words, ReplyBy, IsServed};

use crate::state::{put_state, reader_on, state_in};
use reader::answer::{Answer, Read};
use reader::state::{Numbered, Reader, State, UnknownReader};

// What an answer's first two words say of what a call found: how it ended, and the value, if there is one.
#[derive(Clone, Copy, Debug, PartialEq, Eq)]
pub struct Told {
    // A number and no enum: it is the first of the C interface's four words.
    pub how: u64,
    pub value: Option<u64>,
}

// No `Answer` of reader: its number and what is told stand in it whether a call was refused or not.
#[derive(Clone, Copy, Debug, PartialEq, Eq)]
pub struct Reply {
    pub number: u32,
    pub state: State,
    pub told: Told,
    pub taken: usize,
    pub passed: usize,
}

// What a call finds.
pub(crate) trait Tell {
    ghost told_as: { Self → Told };

    fn told(self) -> Told
        ensures { result ≡ told_as self };
}

// Where nothing is found.
fn nothing() -> Told
    ensures { result ≡ nothing_told }
{
    Told {
        how: 0,
        value: None,
    }
}

// A byte, and how it was found.
fn byte_found(how: u64, b: u8) -> Told
    ensures { result ≡ record { how = how; value = Some b } }
{
    Told {
        how,
        value: Some(u64::from(b)),
    }
}

// A byte, or none.
impl Tell for Option<u8> {
    ghost told_as = { byte_told };

    fn told(self) -> Told {
        match self {
            Some(b) => byte_found(1, b),
            None => nothing(),
        }
    }
}

// 1 with the byte taken, 2 with the byte declined, 0 at the end.
impl Tell for Read {
    ghost told_as = { read_told };

    fn told(self) -> Told {
        match self {
            Read::Taken(b) => byte_found(1, b),
            Read::Declined(b) => byte_found(2, b),
            Read::End => nothing(),
        }
    }
}

// The number returned, and what is told, of what a call found.
pub(crate) fn told_of<T: Tell, E: Numbered>(found: Result<T, E>) -> (u32, Told)
    ensures { result ≡ (number_in E.number_as found, told_in T.told_as found) }
{
    match found {
        Ok(found) => (0, found.told()),
        Err(error) => (error.told_number(), nothing()),
    }
}

// Writes an answer. Where there is no value, the second word stays.
pub(crate) fn put_told(told: Told, taken: usize, passed: usize, answer: &mut [u64; 4])
    ensures { answer.new ≡ told_words answer.old told taken passed }
{
    let value = told.value.unwrap_or(answer[1]);
    *answer = [told.how, value, taken as u64, passed as u64];
}

// A refused call takes nothing and passes nothing.
fn refused(number: u32, state: State) -> Reply
    ensures { result ≡ refused_reply number state }
{
    Reply {
        number,
        state,
        told: nothing(),
        taken: 0,
        passed: 0,
    }
}

fn of_answer<T: Tell, E: Numbered>(answer: Answer<Result<T, E>>) -> Reply
    ensures { result ≡ reply_of T.told_as E.number_as answer }
{
    let state = answer.state;
    let report = answer.report;
    let taken = report.taken;
    let passed = report.passed;
    let (number, told) = told_of(report.found);
    Reply {
        number,
        state,
        told,
        taken,
        passed,
    }
}

// What the reader answers that is named, and the number of an unknown one where none is.
fn reply_by<T: Tell, E: Numbered, F: FnOnce(State, Reader) -> Answer<Result<T, E>>>(
    here: State,
    by: Result<Reader, UnknownReader>,
    call: F,
) -> Reply
    requires { F.IsAlwaysCallable call }
    ensures { ReplyBy T.told_as E.number_as (F.post call here) by here result }
{
    match by {
        Ok(x) => of_answer(call(here, x)),
        Err(unknown) => refused(unknown.number(), here),
    }
}

// Writes a reply to the caller's words, and returns its number.
fn put(reply: Reply, state: &mut [u64; 8], answer: &mut [u64; 4]) -> u32
    ensures number { result ≡ reply.number }
    ensures moved { state.new ≡ state_words state.old reply.state }
    ensures written { answer.new ≡ reply_words answer.old reply }
{
    put_told(reply.told, reply.taken, reply.passed, &mut *answer);
    put_state(&mut *state, reply.state);
    reply.number
}

// A call as the reader that is named answers it, from the state that is lent.
pub(crate) fn served<T: Tell, E: Numbered, F: FnOnce(State, Reader) -> Answer<Result<T, E>>>(
    reader: u8,
    state: &mut [u64; 8],
    answer: &mut [u64; 4],
    call: F,
) -> u32
    requires { F.IsAlwaysCallable call }
    ensures { IsServed T.told_as E.number_as (F.post call (state_in state.old)) reader state.old answer.old result state.new answer.new }
{
    let here = state_in(&*state);
    let by = reader_on(reader, state[7]);
    let reply = reply_by(here, by, call);
    put(reply, &mut *state, &mut *answer)
}
