// Replays answers of the Rust crate that were recorded as lines of text, and of a plain count where the crate has none:
// reads them from standard input, asks our library the same, and says on standard output what differs and how much was
// compared.
//
// `as` stands where std has no `From`: between a usize and a u32 or u64, and to a byte that the number fits. `try_from` would answer an
// error that cannot come.
#![tactic(auto)]

mod call;
mod lines;
mod packed;
mod record;
mod replay;
mod report;
mod run_end;
mod tally;

use crate::lines::Progress;
use crate::tally::Tally;
use std::io::{Error, ErrorKind, Read, Result, Stdin, Stdout};

// Longer than any record, so that a line that fills it is none.
const LINE_ROOM: usize = 128;

// Reads to the end of the input. A proved loop has to end, and nothing says that the input does; so the loop counts its
// turns, up to a number that no run reaches.
fn read_all(mut input: Stdin, output: Stdout, chunk: &mut [u8]) -> Result<Tally> {
    let mut progress: Progress<LINE_ROOM> = Progress::new();
    for _ in 0..u64::MAX {
        let n = input.read(chunk)?;
        if n == 0 {
            progress.finish(output);
            return Ok(progress.tally);
        }
        progress.take_in(output, &chunk[..n]);
    }
    Err(Error::from(ErrorKind::Other))
}

// Where a read fails nothing is summed up: a part of the record is no verdict.
fn main(rt: HostRuntime) {
    let mut chunk = io::large_buffer();
    let Ok(tally) = read_all(rt.stdin(), rt.stdout(), &mut chunk) else {
        let _ = rt
            .stderr()
            .write_all(b"vectors: cannot read standard input\n");
        return;
    };
    report::sum_up(rt.stdout(), tally);
}
