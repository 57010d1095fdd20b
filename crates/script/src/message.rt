// What is told on standard error where the system fails the program.
ghost use Rattle.std.specs.Prelude.{◌≡◌};
ghost use Rattle.script.specs.Message.{message_of};

use crate::stream::{Start, StreamError};

// The message of how a run ended: nothing of one that no failure ended.
pub(crate) fn message(ended: Result<Option<Start>, StreamError>) -> &'static [u8]
    ensures { result.now ≡ message_of ended }
{
    match ended {
        Ok(_) => b"",
        Err(StreamError::CannotRead) => b"script: cannot read standard input\n",
        Err(StreamError::CannotWrite) => b"script: cannot write standard output\n",
    }
}
