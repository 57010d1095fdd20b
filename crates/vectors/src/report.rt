// What the program writes: a line for each of the first lines that differ, and a summary.
ghost use Rattle.std.specs.Prelude.{◌≡◌};
ghost use Rattle.vectors.specs.Lines.{told_after};

use crate::replay::{Answer, Difference, Fault};
use crate::tally::Tally;
use std::fmt;
use std::io::{Cursor, Stdout, Write};

// How many lines are told; the rest are only counted.
const MOST_TOLD: u64 = 20;

// Room for the summary with every number at its longest.
const TEXT_ROOM: usize = 512;

impl fmt::Display for Answer {
    fn fmt<W: fmt::Write>(&self, f: &mut fmt::Formatter<W>) -> fmt::Result {
        f.write_str(match self {
            Answer::Full => "full",
            Answer::Plain => "plain",
            Answer::Digit => "digit",
            Answer::Call => "call",
            Answer::RunEnd => "run end",
        })
    }
}

impl fmt::Display for Difference {
    fn fmt<W: fmt::Write>(&self, f: &mut fmt::Formatter<W>) -> fmt::Result {
        let answer = self.answer;
        let recorded = self.recorded;
        let answered = self.answered;
        write!(f, "{answer} recorded {recorded}, answered {answered}")
    }
}

impl fmt::Display for Fault {
    fn fmt<W: fmt::Write>(&self, f: &mut fmt::Formatter<W>) -> fmt::Result {
        match self {
            Fault::Differs(found) => write!(f, "{found}"),
            Fault::NoRecord => f.write_str("not a record"),
        }
    }
}

impl fmt::Display for Tally {
    fn fmt<W: fmt::Write>(&self, f: &mut fmt::Formatter<W>) -> fmt::Result {
        let counts = [
            (self.words, "words"),
            (self.digits, "digits"),
            (self.calls, "reader calls"),
            (self.run_ends, "run ends"),
        ];
        for (count, name) in counts {
            let lines = count.lines;
            let differences = count.differences;
            writeln!(f, "{lines} {name}, {differences} differences")?;
        }
        let others = self.others;
        writeln!(f, "{others} lines that are no record")
    }
}

// Writes a text by one call, so it is made whole first. What finds no room is left out.
fn write_whole(output: Stdout, text: impl fmt::Display + Drop) {
    let mut whole = Cursor::new([0u8; TEXT_ROOM]);
    let _ = write!(whole, "{text}");
    let used = whole.position() as usize;
    if let Some(written) = whole.get_ref().get(..used) {
        let _ = output.write_all(written);
    }
}

// Tells of a line that differs, unless enough are told, and answers how many are.
pub fn tell(output: Stdout, line: u64, verdict: Result<(), Fault>, told: u64) -> u64
    ensures { result ≡ told_after told verdict }
{
    if told >= MOST_TOLD {
        return told;
    }
    match verdict {
        Ok(()) => told,
        Err(fault) => {
            write_whole(output, format_args!("line {line}: {fault}\n"));
            told + 1
        }
    }
}

pub fn sum_up(output: Stdout, tally: Tally) {
    write_whole(output, tally);
}
