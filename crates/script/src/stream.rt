// Moves bytes: from standard input through `answer` to standard output, in large pieces.
ghost use Rattle.std.specs.Prelude.{◌≡◌, ◌+◌, ◌-◌, ◌^◌, ◌≤◌, ◌<◌, length, take, drop, IfOk, IfErr};
ghost use Rattle.script.specs.declared.stream.StreamError.TheVariants.{CannotRead, CannotWrite};
ghost use Rattle.script.specs.Stream.{next_of, Turns, first_start, arrival_of, Reads, RoomToRead, after_read, Follows};

use crate::answer::{answer, is_stopped};
use crate::line::LONGEST;
use crate::run::{MOST_TEXT, Stage};
use std::io::{Read, Stdin, Stdout};

// What a turn begins with: how far the run is, how many bytes at the buffer's start have arrived and are not answered, and whether the
// input has ended. The count does not stand in one struct with the buffer, which is lent: between turns it goes by value.
#[derive(Clone, Copy, Debug, PartialEq, Eq)]
pub struct Start {
    pub stage: Stage,
    pub filled: usize,
    pub ended: bool,
}

// What is to be done behind a turn.
#[derive(Clone, Copy, Debug, PartialEq, Eq)]
pub enum Next {
    Again,
    Read,
    Over,
}

// A turn: how far the run is, how many bytes are kept at the buffer's start, how many bytes of lines there are to write, and what is
// to be done then.
#[derive(Clone, Copy, Debug, PartialEq, Eq)]
pub struct Turn {
    pub stage: Stage,
    pub kept: usize,
    pub end: usize,
    pub next: Next,
}

// Why a run can not go on.
#[derive(Clone, Copy, Debug, PartialEq, Eq)]
pub enum StreamError {
    CannotRead,
    CannotWrite,
}

pub fn first() -> Start
    ensures { result ≡ first_start }
{
    Start {
        stage: Stage::Gathering(0),
        filled: 0,
        ended: false,
    }
}

// Moves the bytes from a place up to an end to the buffer's start, and answers how many they are.
fn keep_tail(buffer: &mut [u8], from: usize, end: usize) -> usize
    requires { (from ≤ end) × (end ≤ length buffer.old) }
    ensures kept { (result ≡ end - from) × (length buffer.new ≡ length buffer.old) }
    ensures bytes { take result buffer.new ≡ take result (drop from buffer.old) }
{
    buffer.copy_within(from..end, 0);
    end - from
}

fn next_of(stage: Stage, room: usize, ended: bool) -> Next
    ensures { result ≡ next_of stage room ended }
{
    if is_stopped(stage) {
        return Next::Over;
    }
    if room < LONGEST {
        return Next::Again;
    }
    if ended { Next::Over } else { Next::Read }
}

// Answers what has arrived, as far as there is room for the lines, and keeps the bytes that are not answered. A turn that filled the
// buffer of lines is followed by one more, even where nothing is left to answer: that one prints nothing.
pub(crate) fn take_turn(
    text: &mut [u8; MOST_TEXT],
    start: Start,
    buffer: &mut [u8],
    out: &mut [u8],
) -> Turn
    requires { start.filled ≤ length buffer.old }
    ensures { Turns text.old buffer.old start text.new buffer.new out.new result }
{
    let begun = start.stage;
    let filled = start.filled;
    let ended = start.ended;
    let progress = answer(text, begun, &buffer[0..filled], ended, out);
    let stage = progress.stage;
    let end = progress.end;
    let room = out.len() - end;
    let next = next_of(stage, room, ended);
    let kept = keep_tail(buffer, progress.used, filled);
    Turn {
        stage,
        kept,
        end,
        next,
    }
}

// Hands bytes to the system's write, which took them all where the answer is no error. No contract says which bytes a write took, nor to
// whom they went, so nothing more is promised here.
pub(crate) fn hand_on(output: Stdout, bytes: &[u8]) -> Result<(), StreamError>
    ensures { IfErr result (λ error. error ≡ CannotWrite) }
{
    output
        .write_all(bytes)
        .map_err(|_| StreamError::CannotWrite)
}

// Asks the system's read for bytes, and answers how many came. No contract says which bytes it gives.
fn receive(mut input: Stdin, part: &mut [u8]) -> Result<usize, StreamError>
    ensures fits { IfOk result (λ came. came ≤ length part.new) }
    ensures fails { IfErr result (λ error. error ≡ CannotRead) }
{
    input.read(part).map_err(|_| StreamError::CannotRead)
}

// How many bytes are in the buffer behind a read, or none at the input's end.
fn arrival_of(got: Result<usize, StreamError>, kept: usize) -> Result<Option<usize>, StreamError>
    requires { IfOk got (λ came. kept + came < 2 ^ 64) }
    ensures { result ≡ arrival_of got kept }
{
    let came = got?;
    if came == 0 {
        return Ok(None);
    }
    Ok(Some(kept + came))
}

// Reads once, behind the bytes that are kept.
fn read_more(input: Stdin, buffer: &mut [u8], kept: usize) -> Result<Option<usize>, StreamError>
    requires { kept < length buffer.old }
    ensures { Reads kept buffer.old buffer.new result }
{
    let got = receive(input, &mut buffer[kept..]);
    arrival_of(got, kept)
}

fn after_read(turn: Turn, came: Option<usize>) -> Start
    ensures { result ≡ after_read turn came }
{
    Start {
        stage: turn.stage,
        filled: came.unwrap_or(turn.kept),
        ended: came.is_none(),
    }
}

// The run behind a turn whose lines were all written or not, and behind the read that this turn asks for: what the next turn begins
// with, or none where the run is over.
pub(crate) fn go_on(
    input: Stdin,
    turn: Turn,
    written: Result<(), StreamError>,
    ended: bool,
    buffer: &mut [u8],
) -> Result<Option<Start>, StreamError>
    requires { (turn.kept ≤ length buffer.old) × RoomToRead turn buffer.old }
    ensures { Follows written turn ended buffer.old buffer.new result }
{
    written?;
    match turn.next {
        Next::Over => Ok(None),
        Next::Again => Ok(Some(Start {
            stage: turn.stage,
            filled: turn.kept,
            ended,
        })),
        Next::Read => {
            let came = read_more(input, buffer, turn.kept)?;
            Ok(Some(after_read(turn, came)))
        }
    }
}
