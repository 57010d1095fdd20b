// Collects bytes into lines, however the reads cut them, and settles each line.
ghost use Rattle.std.specs.Prelude.{◌≡◌};
ghost use Rattle.vectors.specs.Lines.{beginning, filled_record, line_ended, byte_taken, all_taken, finished};

use crate::record::{Record, parse};
use crate::replay::compare;
use crate::report;
use crate::tally::Tally;
use std::io::Stdout;

// How far the input is taken in.
#[derive(Clone, Copy, Debug, PartialEq, Eq)]
pub struct Progress<const ROOM: usize> {
    // The line that has no end yet, in its first `filled` bytes.
    line: [u8; ROOM],
    filled: usize,
    // How many lines ended.
    ended: u64,
    // How many lines were told.
    told: u64,
    pub tally: Tally,
}

impl<const ROOM: usize> Progress<ROOM> {
    pub fn new() -> Self
        ensures { result ≡ beginning ROOM }
    {
        Progress {
            line: [0; ROOM],
            filled: 0,
            ended: 0,
            told: 0,
            tally: Tally::default(),
        }
    }

    // Takes in what one read gave.
    pub fn take_in(&mut self, output: Stdout, chunk: &[u8])
        ensures { self.new ≡ all_taken chunk.now self.old }
    {
        for byte in chunk {
            self.take_byte(output, *byte);
        }
    }

    // A line that fills the buffer is too long to be a record: what follows of it is dropped.
    fn take_byte(&mut self, output: Stdout, byte: u8)
        ensures { self.new ≡ byte_taken byte self.old }
    {
        if byte == b'\n' {
            return self.end_line(output);
        }
        let filled = self.filled;
        if filled < ROOM {
            self.line[filled] = byte;
            self.filled = filled + 1;
        }
    }

    // A last line needs no line end.
    pub fn finish(&mut self, output: Stdout)
        ensures { self.new ≡ finished self.old }
    {
        let nothing = self.filled == 0;
        if nothing {
            return;
        }
        self.end_line(output);
    }

    fn parse_filled(&self) -> Option<Record>
        ensures { result ≡ filled_record self.now }
    {
        if self.filled < ROOM {
            parse(&self.line[..self.filled])
        } else {
            None
        }
    }

    // Compares a whole line, and tells it if it differs.
    fn end_line(&mut self, output: Stdout)
        ensures { self.new ≡ line_ended self.old }
    {
        let parsed = self.parse_filled();
        let verdict = compare(parsed);
        self.filled = 0;
        self.ended = self.ended.saturating_add(1);
        self.told = report::tell(output, self.ended, verdict, self.told);
        self.tally = self.tally.with(parsed.map(|record| record.kind), verdict);
    }
}
