// Opening a cell: from a word that has arrived as two halves to a fresh state, if the word is accepted.
ghost use Rattle.std.specs.Prelude.{◌≡◌};
ghost use Rattle.reader.specs.Open.{refused_number, open_of, open_outcome_of};

use crate::state::State;
use word::error::Error;
use word::format_flags::Format;

// A word that is not accepted, by the first line of the full check that fails.
#[derive(Clone, Copy, Debug, PartialEq, Eq)]
pub struct RefusedWord(pub Error);

impl From<Error> for RefusedWord {
    ghost from_gives = { λ error word. word ≡ record { 0 = error } };

    fn from(error: Error) -> RefusedWord {
        RefusedWord(error)
    }
}

impl RefusedWord {
    // That line's number in document 01.
    pub fn number(self) -> u32
        ensures { result ≡ refused_number self }
    {
        self.0.number()
    }
}

pub fn open(lo: u64, hi: u64) -> Result<State, RefusedWord>
    ensures { open_outcome_of result ≡ open_of lo hi }
{
    let format = Format { lo, hi };
    format.check()?;
    Ok(State::fresh(format))
}
