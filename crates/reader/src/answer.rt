// What a call answers. Of lexical-util's iterators, whose `next` gives a byte or none and keeps the rest in itself.
ghost use Rattle.std.specs.Prelude.{◌≡◌, Ok, Err};
ghost use Rattle.reader.specs.Answer.{found_in};

use crate::state::{Refusal, State};

// An answer without the state: what was found, how many bytes were taken, how many separators passed.
#[derive(Clone, Copy, Debug, PartialEq, Eq)]
pub struct Report<F> {
    pub found: F,
    pub taken: usize,
    pub passed: usize,
}

#[derive(Clone, Copy, Debug, PartialEq, Eq)]
pub struct Answer<F> {
    pub report: Report<F>,
    pub state: State,
}

// What a peek or a take sees: a byte, or none at the end.
pub type Seen = Result<Option<u8>, Refusal>;

// What a conditional read did: it took a byte, it declined the byte that it saw, or there was none.
#[derive(Clone, Copy, Debug, PartialEq, Eq)]
pub enum Read {
    Taken(u8),
    Declined(u8),
    End,
}

// How many zeros a zero skip took.
pub type Zeros = Result<usize, Refusal>;

// How many bytes a block has, which may be none of them; or that there is no block.
pub type Block = Result<Option<usize>, Refusal>;

impl<T, E> Answer<Result<T, E>> {
    pub fn new(found: T, taken: usize, passed: usize, state: State) -> Self
        ensures { result ≡ record { report = record { found = Ok found; taken = taken; passed = passed }; state = state } }
    {
        let report = Report {
            found: Ok(found),
            taken,
            passed,
        };
        Answer { report, state }
    }

    // A refused call takes nothing, passes nothing and returns the state that it was given. Each call has this as an arm: handing what it does
    // where it is not refused to one function as a closure would leave as much.
    pub fn refused(error: E, state: State) -> Self
        ensures { result ≡ record { report = record { found = Err error; taken = 0; passed = 0 }; state = state } }
    {
        let report = Report {
            found: Err(error),
            taken: 0,
            passed: 0,
        };
        Answer { report, state }
    }
}

impl Answer<Seen> {
    // The byte that was seen: none at the end, and where the call is refused.
    pub fn byte(self) -> Option<u8>
        ensures { result ≡ found_in self.report.found }
    {
        self.report.found.unwrap_or(None)
    }
}
