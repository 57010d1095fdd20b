// Record after record of an input that arrives in parts.
ghost use Rattle.std.specs.Prelude.{◌≡◌, length};
ghost use Rattle.script.specs.Run.{is_stopped};
ghost use Rattle.script.specs.Script.{is_due, GoesAsFar, Answers};

use crate::line::LONGEST;
use crate::record::{Kind, record_behind, size_behind};
use crate::run::{MOST_TEXT, Stage, respond};

// How far a part of the input is answered: how far the run is, how many bytes of the part were read and how many of the buffer written.
#[derive(Clone, Copy, Debug, PartialEq, Eq)]
pub struct Progress {
    pub stage: Stage,
    pub used: usize,
    pub end: usize,
}

pub fn is_stopped(stage: Stage) -> bool
    ensures { result ≡ is_stopped stage }
{
    matches!(stage, Stage::Stopped)
}

// Whether the next record is answered now: the run goes on, there is room for its line, and its body is there, or no more of it comes.
fn is_due(stage: Stage, room: usize, ended: bool, size: usize, there: usize) -> bool
    ensures { result ≡ is_due stage room ended size there }
{
    if is_stopped(stage) {
        return false;
    }
    if room < LONGEST {
        return false;
    }
    if ended {
        return true;
    }
    size <= there
}

// Answers records from the start of an input, of which more may come unless it has ended, for as long as they are whole and there is
// room for their lines.
pub(crate) fn answer(
    text: &mut [u8; MOST_TEXT],
    begun: Stage,
    input: &[u8],
    ended: bool,
    out: &mut [u8],
) -> Progress
    ensures kept { length out.new ≡ length out.old }
    ensures far { GoesAsFar input.now ended (length out.new) result }
    ensures answers { Answers text.old begun input.now ended text.new out.new result }
{
    let mut stage = begun;
    let mut rest = input;
    let mut end = 0;
    while let Some((first, body)) = rest.split_first() {
        let kind = Kind::try_from(*first);
        let size = size_behind(kind);
        let there = body.len();
        if !is_due(stage, out.len() - end, ended, size, there) {
            break;
        }
        let asked = record_behind(kind, body);
        let response = respond(text, stage, asked, out, end);
        stage = response.stage;
        end = response.end;
        rest = &body[size.min(there)..];
    }
    Progress {
        stage,
        used: input.len() - rest.len(),
        end,
    }
}
