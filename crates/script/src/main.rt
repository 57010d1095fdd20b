// Runs a call script: records from standard input, a line on standard output for each answer.
//
// `as` stands where std has no `From`: between a usize and a u32 or u64, and to a narrower number that the value fits. `try_from` would
// answer an error that cannot come.
#![tactic(auto)]

mod answer;
mod call;
mod line;
mod message;
mod record;
mod refusal;
mod run;
mod stream;

ghost use Rattle.std.specs.Prelude.{◌<◌, length};
ghost use Rattle.script.specs.Record.{longest_body};
ghost use Rattle.script.specs.Stream.{Ends};

use crate::message::message;
use crate::run::MOST_TEXT;
use crate::stream::{Start, StreamError, first, go_on, hand_on, take_turn};
use std::io::{Stdin, Stdout};

// Takes turns until the run is over: none. A proved loop has to end, and nothing says that the input does; so the turns are counted, up
// to a number that no run uses up.
fn take_turns(
    input: Stdin,
    output: Stdout,
    text: &mut [u8; MOST_TEXT],
    buffer: &mut [u8],
    out: &mut [u8],
) -> Result<Option<Start>, StreamError>
    requires { longest_body < length buffer.old }
    ensures { Ends text.new buffer.new out.new result }
{
    let mut start = first();
    for _ in 0..u64::MAX {
        let turn = take_turn(text, start, buffer, out);
        let end = turn.end;
        let written = hand_on(output, &out[0..end]);
        match go_on(input, turn, written, start.ended, buffer)? {
            Some(next) => start = next,
            None => return Ok(None),
        }
    }
    Ok(Some(start))
}

fn main(rt: HostRuntime) {
    let mut text = io::buffer();
    let mut buffer = io::large_buffer();
    let mut out = io::large_buffer();
    let ended = take_turns(rt.stdin(), rt.stdout(), &mut text, &mut buffer, &mut out);
    let _ = rt.stderr().write_all(message(ended));
}
