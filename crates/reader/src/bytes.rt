// `Bytes`: the caller's slice, kept beside the cursor's state. After lexical-util's Bytes. Each function takes the struct apart and
// calls one on the slice and the state, which has the work; so most need no proof file.
ghost use Rattle.std.specs.Prelude.{◌≡◌};
ghost use Rattle.reader.specs.Answer.{outcome_of, read_outcome_of, skip_outcome_of, block_outcome_of, count_outcome_of};
ghost use Rattle.reader.specs.Block.{BlockPart};
ghost use Rattle.reader.specs.Bytes.{bytes_over, Rest, count_bytes, peek_bytes, next_bytes, next_all_bytes, read_bytes, skip_bytes, take_n_bytes, whole_outcome};

use crate::answer::{Answer, Block, Read, Report, Seen, Zeros};
use crate::state::{Reader, Refusal, State};
use word::byte_set::ByteSet;
use word::format_flags::Format;

#[derive(Clone, Copy, Debug, PartialEq, Eq)]
pub struct Bytes<'a> {
    pub slc: &'a [u8],
    pub state: State,
}

// The part of a slice from the cursor on; the empty part at its end, for a cursor past that. A return for each, since each part stands in
// another place.
pub fn rest<'a>(s: &'a [u8], state: State) -> &'a [u8]
    ensures { Rest s.entry state result }
{
    let cursor = state.cursor;
    let end = s.len();
    if end < cursor {
        return &s[end..end];
    }
    &s[cursor..end]
}

impl<'a> Bytes<'a> {
    // The slice with the cursor at its start and nothing counted.
    pub fn new(slc: &'a [u8], format: Format) -> Bytes<'a>
        ensures { result ≡ bytes_over slc.entry format }
    {
        let state = State::fresh(format);
        Bytes { slc, state }
    }

    pub fn cursor(self) -> usize
        ensures { result ≡ self.entry.state.cursor }
    {
        self.state.cursor
    }

    // The whole slice.
    pub fn get_buffer(self) -> &'a [u8]
        ensures { result ≡ self.entry.slc }
    {
        self.slc
    }

    // What is left of the slice.
    pub fn as_slice(self) -> &'a [u8]
        ensures { Rest self.entry.slc self.entry.state result }
    {
        rest(self.slc, self.state)
    }

    pub fn current_count(self, reader: Reader) -> Result<usize, Refusal>
        ensures { count_outcome_of result ≡ count_bytes self.entry reader }
    {
        crate::skip::current_count(self.slc, self.state, reader)
    }

    // The part that `take_n` takes for the same arguments.
    pub fn take_n_part(self, reader: Reader, n: usize) -> &'a [u8]
        ensures { BlockPart self.entry.slc self.entry.state reader n result }
    {
        crate::skip::take_n_part(self.slc, self.state, reader, n)
    }

    // Keeps the state that a call returns beside the slice, and hands on the rest of its answer.
    fn keep<F>(&mut self, answer: Answer<F>) -> Report<F>
        ensures { (result ≡ answer.report) × ((self.new.state ≡ answer.state) × (self.new.slc ≡ self.old.slc)) }
    {
        self.state = answer.state;
        answer.report
    }

    pub fn peek(&mut self, reader: Reader) -> Report<Seen>
        ensures { (outcome_of (record { report = result; state = self.new.state }) ≡ peek_bytes self.old reader) × (self.new.slc ≡ self.old.slc) }
    {
        let answer = crate::skip::peek(self.slc, self.state, reader);
        self.keep(answer)
    }

    pub fn next(&mut self, reader: Reader) -> Report<Seen>
        ensures { (outcome_of (record { report = result; state = self.new.state }) ≡ next_bytes self.old reader) × (self.new.slc ≡ self.old.slc) }
    {
        let answer = crate::skip::next(self.slc, self.state, reader);
        self.keep(answer)
    }

    // Takes to the end of the slice.
    pub fn next_all(&mut self, reader: Reader) -> Report<Seen>
        ensures { (outcome_of (record { report = result; state = self.new.state }) ≡ next_all_bytes self.old reader) × (self.new.slc ≡ self.old.slc) }
    {
        let answer = crate::skip::next_all(self.slc, self.state, reader);
        self.keep(answer)
    }

    pub fn skip_zeros(&mut self, reader: Reader) -> Report<Zeros>
        ensures { (skip_outcome_of (record { report = result; state = self.new.state }) ≡ skip_bytes self.old reader) × (self.new.slc ≡ self.old.slc) }
    {
        let answer = crate::iterator::skip_zeros(self.slc, self.state, reader);
        self.keep(answer)
    }

    pub fn read_if(&mut self, reader: Reader, wanted: ByteSet) -> Report<Result<Read, Refusal>>
        ensures { (read_outcome_of (record { report = result; state = self.new.state }) ≡ read_bytes self.old reader wanted) × (self.new.slc ≡ self.old.slc) }
    {
        let answer = crate::iterator::read_if(self.slc, self.state, reader, wanted);
        self.keep(answer)
    }

    pub fn take_n(&mut self, reader: Reader, n: usize) -> Report<Block>
        ensures { (block_outcome_of (record { report = result; state = self.new.state }) ≡ take_n_bytes self.old reader n) × (self.new.slc ≡ self.old.slc) }
    {
        let answer = crate::skip::take_n(self.slc, self.state, reader, n);
        self.keep(answer)
    }
}

// Takes to the end of a slice, from its start: for a caller with plain parameters.
pub fn take_to_end(s: &[u8], format: Format, reader: Reader) -> Report<Seen>
    ensures { outcome_of (record { report = result; state = (whole_outcome s.now format reader).state }) ≡ whole_outcome s.now format reader }
{
    let mut bytes = Bytes::new(s, format);
    bytes.next_all(reader)
}
