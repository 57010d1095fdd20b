// How many lines of each kind were compared, and how many of them differ.
ghost use Rattle.std.specs.Prelude.{◌≡◌};
ghost use Rattle.vectors.specs.Lines.{one_line, of_its_kind, tallied};

use crate::record::Kind;
use crate::replay::Fault;

// Counts go up to the largest number.
#[derive(Clone, Copy, Debug, PartialEq, Eq, Default)]
pub struct Count {
    pub lines: u64,
    pub differences: u64,
}

#[derive(Clone, Copy, Debug, PartialEq, Eq, Default)]
pub struct Tally {
    pub words: Count,
    pub digits: Count,
    pub calls: Count,
    pub run_ends: Count,
    pub others: u64,
}

impl Count {
    fn with(mut self, differs: bool) -> Self
        ensures { result ≡ one_line self differs }
    {
        self.lines = self.lines.saturating_add(1);
        if differs {
            self.differences = self.differences.saturating_add(1);
        }
        self
    }
}

impl Tally {
    // With one more line, of no kind where it is no record.
    pub fn with(self, kind: Option<Kind>, verdict: Result<(), Fault>) -> Self
        ensures { result ≡ tallied self kind verdict }
    {
        match verdict {
            Ok(()) => self.with_kind(kind, false),
            Err(Fault::Differs(_)) => self.with_kind(kind, true),
            Err(Fault::NoRecord) => self.with_kind(None, true),
        }
    }

    fn with_kind(mut self, kind: Option<Kind>, differs: bool) -> Self
        ensures { result ≡ of_its_kind self kind differs }
    {
        match kind {
            Some(Kind::Word) => {
                self.words = self.words.with(differs);
            }
            Some(Kind::Digit) => {
                self.digits = self.digits.with(differs);
            }
            Some(Kind::Call) => {
                self.calls = self.calls.with(differs);
            }
            Some(Kind::RunEnd) => {
                self.run_ends = self.run_ends.with(differs);
            }
            None => {
                self.others = self.others.saturating_add(1);
            }
        }
        self
    }
}
