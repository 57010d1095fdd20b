// Conditional reads and the zero skip. After lexical-util's iterator.rs.
ghost use Rattle.std.specs.Prelude.{◌≡◌, ◌+◌, ◌≤◌, false, ◌&&◌, length, ◌==◌, nat_eq, nat_lt, slice_index};
ghost use Rattle.word.specs.ByteSet.{member};
ghost use Rattle.reader.specs.Reading.{syntax_for, reading_with, reading_for, passed_at};
ghost use Rattle.reader.specs.Answer.{refusal_in, read_outcome_of, skip_outcome_of};
ghost use Rattle.reader.specs.Calls.{read_of};
ghost use Rattle.reader.specs.ZeroSkip.{is_zero, skip_refusal, skip_zeros_of};

use crate::answer::{Answer, Read, Zeros};
use crate::passing::{Syntax, landing, past_taken, syntax_for};
use crate::skip::look;
use crate::state::{Reader, Refusal, State, admit_skip, moved, with_count};
use word::byte_set::ByteSet;

// A conditional read given the reader's syntax.
fn read_in(
    s: &[u8],
    state: State,
    syntax: Syntax,
    reader: Reader,
    wanted: ByteSet,
) -> Answer<Result<Read, Refusal>>
    ensures { read_outcome_of result ≡ read_of (reading_with syntax) s.now state reader (member wanted) }
{
    match look(s, state, syntax, reader) {
        Ok(seen) => {
            let there = moved(state, seen.place);
            let Some(b) = seen.byte else {
                return Answer::new(Read::End, 0, seen.passed, there);
            };
            if wanted.contains(b) {
                return Answer::new(Read::Taken(b), 1, seen.passed, moved(state, seen.place + 1));
            }
            Answer::new(Read::Declined(b), 0, seen.passed, there)
        }
        Err(refusal) => Answer::refused(refusal, state),
    }
}

// Takes the byte under the cursor, uncounted, where it is in the set, and declines it where it is not. The passing stays all the same.
pub fn read_if(
    s: &[u8],
    state: State,
    reader: Reader,
    wanted: ByteSet,
) -> Answer<Result<Read, Refusal>>
    ensures { read_outcome_of result ≡ read_of (reading_for state reader) s.now state reader (member wanted) }
{
    let syntax = syntax_for(state, reader);
    read_in(s, state, syntax, reader, wanted)
}

// The same for one byte.
pub fn read_if_value_cased(
    s: &[u8],
    state: State,
    reader: Reader,
    value: u8,
) -> Answer<Result<Read, Refusal>>
    ensures { read_outcome_of result ≡ read_of (reading_for state reader) s.now state reader (λ b. nat_eq b value) }
{
    let wanted = ByteSet::from(value);
    read_if(s, state, reader, wanted)
}

// Whether a run of digits may begin: the refusals of a zero skip, 16, 17, 18, then 12 to 14.
pub fn admit_run(s: &[u8], state: State, reader: Reader) -> Result<(), Refusal>
    ensures { refusal_in result ≡ skip_refusal (syntax_for state reader).flags s.now state reader }
{
    let own = syntax_for(state, reader);
    admit_skip(s, state, own.flags, reader)
}

// Where a cursor lands at a place. Most places have no separator, and there no call is made. (It calls `landing`: what the loop of
// `next_all` calls is compiled into that loop only as long as nothing else calls it.)
fn place_at(s: &[u8], syntax: Syntax, first: bool, at: usize) -> usize
    requires { at ≤ length s.now }
    ensures { (result ≡ at + passed_at (reading_with syntax) s.now first at) × (result ≤ length s.now) }
{
    if s.len() <= at {
        return at;
    }
    let b = s[at];
    if b != syntax.separator {
        return at;
    }
    landing(s, syntax, first, at)
}

// Whether there is a byte at the place, and it is `0`.
fn is_zero_at(s: &[u8], place: usize) -> bool
    ensures { result ≡ (nat_lt place (length s.now) && is_zero (slice_index s.now place)) }
{
    match s.get(place) {
        Some(b) => *b == b'0',
        None => false,
    }
}

// Reads zeros until a read fails, from a state that is not refused. The loop keeps numbers only, and makes the state at its end; most
// turns stand on a zero, which is no separator, so that test stands first.
fn take_zeros(s: &[u8], state: State, syntax: Syntax, reader: Reader) -> Answer<Zeros>
    requires { (skip_refusal syntax.flags s.now state reader ≡ 0) × ((syntax.separator == 48) ≡ false) }
    ensures { skip_outcome_of result ≡ skip_zeros_of (reading_with syntax) s.now state reader }
{
    let mut at = state.cursor;
    let mut count = state.count(reader);
    let mut taken: usize = 0;
    let mut passed: usize = 0;
    // Document 01 names this form: a `loop` that breaks with the number of zeros.
    let zeros = loop {
        if is_zero_at(s, at) {
            at += 1;
            count += 1;
            taken += 1;
            continue;
        }
        let place = place_at(s, syntax, count == 0, at);
        let over = place - at;
        at = place;
        passed += over;
        if !is_zero_at(s, place) {
            break taken;
        }
        at += 1;
        count += 1;
        taken += 1;
    };
    let end = with_count(moved(state, at), reader, count);
    Answer::new(zeros, zeros, passed, end)
}

// The same where `0` is itself the separator (words that the check refuses): every zero is then judged by the rule. With the consecutive
// flag each zero of a refused run would be judged by the whole run, so once the reader has counted the run is read at once.
fn take_separator_zeros(s: &[u8], state: State, syntax: Syntax, reader: Reader) -> Answer<Zeros>
    requires { (skip_refusal syntax.flags s.now state reader ≡ 0) × (syntax.separator ≡ 48) }
    ensures { skip_outcome_of result ≡ skip_zeros_of (reading_with syntax) s.now state reader }
{
    let counted = state.count(reader);
    let mut at = state.cursor;
    let mut count = counted;
    let mut taken: usize = 0;
    let mut passed: usize = 0;
    // Document 01 names this form: a `loop` that breaks with the number of zeros.
    let zeros = loop {
        let place = landing(s, syntax, count == 0, at);
        let over = place - at;
        at = place;
        passed += over;
        if !is_zero_at(s, place) {
            break taken;
        }
        let refused = (over == 0) & (count != 0);
        at = past_taken(s, syntax, refused, place);
        let more = at - place;
        count += more;
        taken += more;
    };
    let stopped = moved(state, at);
    let end = with_count(stopped, reader, count);
    Answer::new(zeros, zeros, passed, end)
}

// A zero skip given the reader's syntax.
fn skip_zeros_in(s: &[u8], state: State, syntax: Syntax, reader: Reader) -> Answer<Zeros>
    ensures { skip_outcome_of result ≡ skip_zeros_of (reading_with syntax) s.now state reader }
{
    match admit_skip(s, state, syntax.flags, reader) {
        Ok(()) => {
            if syntax.separator == b'0' {
                return take_separator_zeros(s, state, syntax, reader);
            }
            take_zeros(s, state, syntax, reader)
        }
        Err(refusal) => Answer::refused(refusal, state),
    }
}

// Takes the zeros under the cursor, each of which raises the reader's count, until a read of one fails.
pub fn skip_zeros(s: &[u8], state: State, reader: Reader) -> Answer<Zeros>
    ensures { skip_outcome_of result ≡ skip_zeros_of (reading_for state reader) s.now state reader }
{
    let syntax = syntax_for(state, reader);
    skip_zeros_in(s, state, syntax, reader)
}
