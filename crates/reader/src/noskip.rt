// The plain reader, which never passes a separator. After lexical-util's noskip.rs.
ghost use Rattle.std.specs.Prelude.{◌≡◌};
ghost use Rattle.reader.specs.Plain.{plain_outcome_of, plain_peek_of, plain_next_of};

use crate::answer::Report;
use crate::state::Reader;

// The plain reader's state.
#[derive(Clone, Copy, Debug, PartialEq, Eq)]
pub struct Cursor {
    pub cursor: usize,
}

// The plain reader's one refusal.
#[derive(Clone, Copy, Debug, PartialEq, Eq)]
pub struct CursorPastEnd;

impl CursorPastEnd {
    // Its number in document 01.
    pub fn number(self) -> u32
        ensures { result ≡ 16 }
    {
        16
    }
}

// What the plain reader sees: a byte, or none at the end. Its answer is a type of its own, for its state is a cursor alone.
pub type Seen = Result<Option<u8>, CursorPastEnd>;

#[derive(Clone, Copy, Debug, PartialEq, Eq)]
pub struct Answer {
    pub report: Report<Seen>,
    pub cursor: Cursor,
}

// What is under the cursor, if it is not past the end.
fn see(s: &[u8], cursor: Cursor) -> Seen
    ensures { plain_outcome_of (record { report = record { found = result; taken = 0; passed = 0 }; cursor = cursor }) ≡ plain_peek_of s.now cursor.cursor }
{
    if s.len() < cursor.cursor {
        return Err(CursorPastEnd);
    }
    Ok(s.get(cursor.cursor).copied())
}

// An answer that takes nothing.
fn stayed(found: Seen, cursor: Cursor) -> Answer
    ensures { result ≡ record { report = record { found = found; taken = 0; passed = 0 }; cursor = cursor } }
{
    let report = Report {
        found,
        taken: 0,
        passed: 0,
    };
    Answer { report, cursor }
}

// The byte under the cursor. The four readers are alike.
pub fn peek(s: &[u8], cursor: Cursor, _reader: Reader) -> Answer
    ensures { plain_outcome_of result ≡ plain_peek_of s.now cursor.cursor }
{
    stayed(see(s, cursor), cursor)
}

// The same, and the cursor moves past the byte. Each way has an answer of its own: by one that was made of how many bytes are taken, a call
// took sixteen instructions more, of thirty-five.
pub fn next(s: &[u8], cursor: Cursor, _reader: Reader) -> Answer
    ensures { plain_outcome_of result ≡ plain_next_of s.now cursor.cursor }
{
    match see(s, cursor) {
        Ok(Some(b)) => {
            let past = cursor.cursor + 1;
            let report = Report {
                found: Ok(Some(b)),
                taken: 1,
                passed: 0,
            };
            Answer {
                report,
                cursor: Cursor { cursor: past },
            }
        }
        Ok(None) => stayed(Ok(None), cursor),
        Err(error) => stayed(Err(error), cursor),
    }
}
