// Lines of the output, written into a buffer behind those that are there. The place is taken and answered by value: in a struct behind
// `&mut self` it was stored and loaded for each byte, and a line took three times as long. The digits are not written by `fmt`, whose
// contracts do not say where in a buffer they stand.
ghost use Rattle.std.specs.Prelude.{[], ◌∷◌, ◌+◌, ◌*◌, ◌≤◌, ◌<◌, length};
ghost use Rattle.script.specs.Decimal.{decimal};
ghost use Rattle.script.specs.Line.{behind, line_of, longest_number, longest_field, longest_line, Wrote};
ghost use Rattle.script.specs.Reply.{fields_of, reply_line};

use crate::call::{Reply, Shown, kind_digit};
use crate::record::Call;

// The most bytes of a line (`longest_line`).
pub const LONGEST: usize = 86;

fn put(out: &mut [u8], at: usize, b: u8) -> usize
    requires { at < length out.old }
    ensures { Wrote out.old at (b ∷ []) out.new result }
{
    out[at] = b;
    at + 1
}

fn put_all(out: &mut [u8], at: usize, bytes: &[u8]) -> usize
    requires { at + length bytes.now ≤ length out.old }
    ensures { Wrote out.old at bytes.now out.new result }
{
    let end = at + bytes.len();
    out[at..end].copy_from_slice(bytes);
    end
}

fn long_number(out: &mut [u8], at: usize, n: usize) -> usize
    requires { at + longest_number ≤ length out.old }
    ensures wrote { Wrote out.old at (decimal n) out.new result }
    ensures short { result ≤ at + longest_number }
{
    let mut digits = [0u8; 20];
    let k = io::decimal(n as u64, &mut digits);
    put_all(out, at, &digits[..k])
}

// Most numbers here have one digit, which needs no division.
fn number(out: &mut [u8], at: usize, n: usize) -> usize
    requires { at + longest_number ≤ length out.old }
    ensures wrote { Wrote out.old at (decimal n) out.new result }
    ensures short { result ≤ at + longest_number }
{
    if n < 10 {
        return put(out, at, b'0' + n as u8);
    }
    long_number(out, at, n)
}

// A space and a number.
fn field(out: &mut [u8], at: usize, n: usize) -> usize
    requires { at + longest_field ≤ length out.old }
    ensures wrote { Wrote out.old at (32 ∷ decimal n) out.new result }
    ensures short { result ≤ at + longest_field }
{
    let begun = put(out, at, b' ');
    number(out, begun, n)
}

// The last fields of a call's line: cursor, taken and passed.
fn last_fields(out: &mut [u8], at: usize, cursor: usize, taken: usize, passed: usize) -> usize
    requires { at + (3 * longest_field + 1) ≤ length out.old }
    ensures { Wrote out.old at (behind (decimal cursor ∷ decimal taken ∷ decimal passed ∷ [])) out.new result }
{
    let first = field(out, at, cursor);
    let second = field(out, first, taken);
    let third = field(out, second, passed);
    put(out, third, b'\n')
}

// A refusal's number behind its `!`.
pub(crate) fn refusal_line(out: &mut [u8], at: usize, n: usize) -> usize
    requires { at + (longest_field + 1) ≤ length out.old }
    ensures { Wrote out.old at (line_of (33 ∷ decimal n) []) out.new result }
{
    let begun = put(out, at, b'!');
    let end = number(out, begun, n);
    put(out, end, b'\n')
}

// ` none` and the line's end. Here and in `dash_field` byte by byte: a literal's copy tests first whether the two overlap, and a line took
// a tenth longer.
fn none_field(out: &mut [u8], at: usize) -> usize
    requires { at + 6 ≤ length out.old }
    ensures { Wrote out.old at (behind ((110 ∷ 111 ∷ 110 ∷ 101 ∷ []) ∷ [])) out.new result }
{
    let first = put(out, at, b' ');
    let second = put(out, first, b'n');
    let third = put(out, second, b'o');
    let fourth = put(out, third, b'n');
    let fifth = put(out, fourth, b'e');
    put(out, fifth, b'\n')
}

// The line of an open: `1` and the check's answer.
pub(crate) fn open_line(out: &mut [u8], at: usize, answer: usize) -> usize
    requires { at + longest_line ≤ length out.old }
    ensures { Wrote out.old at (line_of (decimal 1) (decimal answer ∷ [])) out.new result }
{
    let begun = put(out, at, b'1');
    let end = field(out, begun, answer);
    put(out, end, b'\n')
}

fn dash_field(out: &mut [u8], at: usize) -> usize
    requires { at + 2 ≤ length out.old }
    ensures { Wrote out.old at (32 ∷ 45 ∷ []) out.new result }
{
    let begun = put(out, at, b' ');
    put(out, begun, b'-')
}

// What stands behind the kind.
fn reply_fields(out: &mut [u8], at: usize, reply: Reply) -> usize
    requires { at + (4 * longest_field + 1) ≤ length out.old }
    ensures { Wrote out.old at (behind (fields_of reply.shown reply)) out.new result }
{
    let shown = reply.shown;
    let cursor = reply.state.cursor;
    match shown {
        Shown::Number(n) => {
            let end = field(out, at, n);
            last_fields(out, end, cursor, reply.taken, reply.passed)
        }
        Shown::Dash => {
            let end = dash_field(out, at);
            last_fields(out, end, cursor, reply.taken, reply.passed)
        }
        Shown::NoBlock => none_field(out, at),
        Shown::Refused(n) => {
            let begun = put(out, at, b' ');
            refusal_line(out, begun, n as usize)
        }
    }
}

// The line of a call.
pub(crate) fn reply_line(out: &mut [u8], at: usize, call: Call, reply: Reply) -> usize
    requires { at + longest_line ≤ length out.old }
    ensures { Wrote out.old at (reply_line call reply) out.new result }
{
    let begun = put(out, at, kind_digit(call));
    reply_fields(out, begun, reply)
}
