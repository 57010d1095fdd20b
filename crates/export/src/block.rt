// The block take. The part of the caller's buffer that it takes crosses as the place where it begins and its length.
ghost use Rattle.std.specs.Prelude.{◌≡◌};
ghost use Rattle.reader.specs.Answer.{number_of};
ghost use Rattle.reader.specs.Reading.{reading_for};
ghost use Rattle.reader.specs.Block.{take_n_of};
ghost use Rattle.export.specs.State.{state_in, state_words};
ghost use Rattle.export.specs.Answer.{block_words};
ghost use Rattle.export.specs.Calls.{block_taken_by};
ghost use Rattle.export.specs.Code.Reply.{reply_of, block_reply};
ghost use Rattle.export.specs.Code.Block.{place_told, place_in};

use crate::reply::{Tell, Told, served};
use reader::answer::{Answer, Block, Report};
use reader::skip::take_n;
use reader::state::{Reader, Refusal, State};

// The place where a block begins.
#[derive(Clone, Copy, Debug, PartialEq, Eq)]
pub struct Place(pub usize);

// A block is told by its place.
impl Tell for Option<Place> {
    ghost told_as = { place_told };

    fn told(self) -> Told {
        match self {
            Some(place) => Told {
                how: 1,
                value: Some(place.0 as u64),
            },
            None => Told {
                how: 0,
                value: None,
            },
        }
    }
}

fn place_in(found: Block, cursor: usize) -> Result<Option<Place>, Refusal>
    ensures { result ≡ place_in cursor found }
{
    Ok(found?.map(|_| Place(cursor)))
}

// A block take whose block is told by its place.
fn take_placed(
    s: &[u8],
    here: State,
    reader: Reader,
    n: usize,
) -> Answer<Result<Option<Place>, Refusal>>
    ensures { reply_of place_told number_of result ≡ block_reply here.cursor (take_n_of (reading_for here reader) s.now here reader n) }
{
    let answer = take_n(s, here, reader, n);
    let report = answer.report;
    let taken = report.taken;
    let passed = report.passed;
    let found = place_in(report.found, here.cursor);
    let state = answer.state;
    Answer {
        report: Report {
            found,
            taken,
            passed,
        },
        state,
    }
}

// Takes up to n bytes at once, by a reader without flags; one with any flag answers no block and stays.
#[unsafe(no_mangle)]
pub extern "C" fn pawhetino_take_n(
    s: &[u8],
    reader: u8,
    state: &mut [u64; 8],
    answer: &mut [u64; 4],
    n: usize,
) -> u32
    ensures number { result ≡ (block_taken_by reader state.old s.now n).refusal }
    ensures moved { state.new ≡ state_words state.old (block_taken_by reader state.old s.now n).state }
    ensures written { answer.new ≡ block_words answer.old (state_in state.old).cursor (block_taken_by reader state.old s.now n) }
{
    served(
        reader,
        &mut *state,
        &mut *answer,
        |here, x| take_placed(s, here, x, n),
    )
}
