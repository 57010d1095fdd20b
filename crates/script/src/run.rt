// A run of a call script: what it answers to one record.
ghost use Rattle.std.specs.Prelude.{◌≡◌, List, ℕ, ◌+◌, ◌≤◌, length, take};
ghost use Rattle.script.specs.Line.{longest_line};
ghost use Rattle.script.specs.Run.{run_in, stops, add_text, open_text, call_response, gathering_response, opened_response, respond as respond·, Responds, Allows};

use crate::call::reply_to;
use crate::line::{open_line, refusal_line, reply_line};
use crate::record::{Call, Record};
use crate::refusal::Refusal;
use reader::open::open;
use reader::state::{Reader, State};

// The most bytes of text.
pub const MOST_TEXT: usize = 4096;

// How far a run is. How much text there is stands here and not beside the buffer, since a run that is stopped has none.
#[derive(Clone, Copy, Debug, PartialEq, Eq)]
pub enum Stage {
    // How many bytes of text there are.
    Gathering(usize),
    // The same, and the cursor's state.
    Opened(usize, State),
    Stopped,
}

// The stage behind a record, and where its line ends in the buffer.
#[derive(Clone, Copy, Debug, PartialEq, Eq)]
pub struct Response {
    pub stage: Stage,
    pub end: usize,
}

fn responded(stage: Stage, end: usize) -> Response
    ensures { result ≡ record { stage = stage; end = end } }
{
    Response { stage, end }
}

fn stop(refusal: Refusal, out: &mut [u8], at: usize) -> Response
    requires { at + longest_line ≤ length out.old }
    ensures { (buffer : List ℕ) → Responds (stops refusal) buffer out.old at out.new result }
{
    let end = refusal_line(out, at, refusal.number() as usize);
    responded(Stage::Stopped, end)
}

fn add_text(text: &mut [u8; MOST_TEXT], n: usize, b: u8, at: usize) -> Result<Response, Refusal>
    ensures { (out : List ℕ) → Allows (add_text (take n text.old) b) text.new out at out result }
{
    if n < MOST_TEXT {
        text[n] = b;
        return Ok(responded(Stage::Gathering(n + 1), at));
    }
    Err(Refusal::TextFull)
}

fn open_text(n: usize, lo: u64, hi: u64, out: &mut [u8], at: usize) -> Response
    requires { at + longest_line ≤ length out.old }
    ensures { (buffer : List ℕ) → Responds (open_text (take n buffer) lo hi) buffer out.old at out.new result }
{
    match open(lo, hi) {
        Ok(state) => {
            let end = open_line(out, at, 0);
            responded(Stage::Opened(n, state), end)
        }
        Err(word) => {
            let end = open_line(out, at, word.number() as usize);
            responded(Stage::Gathering(n), end)
        }
    }
}

// A record before an accepted open. A call's reader byte is judged before the turn.
fn gathering_response(
    text: &mut [u8; MOST_TEXT],
    n: usize,
    asked: Record,
    out: &mut [u8],
    at: usize,
) -> Result<Response, Refusal>
    requires { at + longest_line ≤ length out.old }
    ensures { Allows (gathering_response (take n text.old) asked) text.new out.old at out.new result }
{
    match asked {
        Record::Text(b) => add_text(text, n, b, at),
        Record::Open(lo, hi) => Ok(open_text(n, lo, hi, out, at)),
        Record::Call(by, _) => {
            // Here and below by hand: with a `From` for a plain `?` a line took up to a tenth longer.
            Reader::try_from(by).map_err(|_| Refusal::Unknown)?;
            Err(Refusal::OutOfTurn)
        }
    }
}

// A call of a reader: its line, and the state that it returns. A number of bytes past the buffer's end stands for all of it.
fn call_line(
    text: &[u8],
    n: usize,
    state: State,
    reader: Reader,
    call: Call,
    out: &mut [u8],
    at: usize,
) -> Response
    requires { at + longest_line ≤ length out.old }
    ensures { Responds (call_response (take n text.now) state reader call) text.now out.old at out.new result }
{
    let size = n.min(text.len());
    let reply = reply_to(&text[0..size], state, reader, call);
    let end = reply_line(out, at, call, reply);
    let next = reply.state;
    responded(Stage::Opened(n, next), end)
}

// A record behind an accepted open.
fn opened_response(
    text: &[u8],
    n: usize,
    state: State,
    asked: Record,
    out: &mut [u8],
    at: usize,
) -> Result<Response, Refusal>
    requires { at + longest_line ≤ length out.old }
    ensures { Allows (opened_response (take n text.now) state asked) text.now out.old at out.new result }
{
    match asked {
        Record::Text(_) | Record::Open(_, _) => Err(Refusal::OutOfTurn),
        Record::Call(by, call) => {
            let reader = Reader::try_from(by).map_err(|_| Refusal::Unknown)?;
            Ok(call_line(text, n, state, reader, call, out, at))
        }
    }
}

// The response to a record, or why the run stops.
fn allowed(
    text: &mut [u8; MOST_TEXT],
    stage: Stage,
    asked: Result<Record, Refusal>,
    out: &mut [u8],
    at: usize,
) -> Result<Response, Refusal>
    requires { at + longest_line ≤ length out.old }
    ensures { Allows (respond· (run_in text.old stage) asked) text.new out.old at out.new result }
{
    match stage {
        Stage::Gathering(n) => gathering_response(text, n, asked?, out, at),
        Stage::Opened(n, state) => opened_response(text, n, state, asked?, out, at),
        Stage::Stopped => Ok(responded(Stage::Stopped, at)),
    }
}

// One record: the next stage, the text, and the line behind those that are written.
pub(crate) fn respond(
    text: &mut [u8; MOST_TEXT],
    stage: Stage,
    asked: Result<Record, Refusal>,
    out: &mut [u8],
    at: usize,
) -> Response
    requires { at + longest_line ≤ length out.old }
    ensures { Responds (respond· (run_in text.old stage) asked) text.new out.old at out.new result }
{
    match allowed(text, stage, asked, out, at) {
        Ok(response) => response,
        Err(refusal) => stop(refusal, out, at),
    }
}
