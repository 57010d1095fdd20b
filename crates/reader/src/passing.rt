// Passing: what a format word says to a reader, and how far the reader's cursor moves over separators at a place. A slice and a place in
// it stay two arguments: a pair of them would be made anew for each byte, and how far the place may be differs from call to call. So does
// what is known of the byte there: that it is the separator is a fact of the caller's compare, and no value carries it.
ghost use Rattle.std.specs.Prelude.{◌≡◌, ◌+◌, ◌-◌, ◌%◌, ◌^◌, ◌<◌, ◌≤◌, true, false, not, ◌&&◌, length, drop, if◌then◌else◌, ◌==◌, slice_index, Some, None, MatchOption};
ghost use Rattle.std.specs.Int.NonZero.{non_zero_u8_get};
ghost use Rattle.reader.specs.Rule.{rule_of};
ghost use Rattle.reader.specs.Code.RuleWords.{IsLater};
ghost use Rattle.reader.specs.Place.{byte_at, before, after, first_other, separator_run, nearest};
ghost use Rattle.reader.specs.Reading.{flags_of, syntax_of, syntax_for, reading_with, syntax_in, neighbour_of, previous, following, passed_at};

use crate::rule;
use crate::rule::{Flags, Later, Neighbour};
use crate::search::search_from;
use crate::state::{Reader, State};
use std::num::NonZeroU8;
use word::digit::char_is_digit_by_table;
use word::format_flags::{Format, mantissa_radix_byte};

// What a format word says to one reader.
#[derive(Clone, Copy, Debug, PartialEq, Eq)]
pub struct Syntax {
    pub separator: u8,
    pub radix: u8,
    pub flags: Flags,
}

// The same of a word that has a separator: 0 would stand for none. Not one type over the separator's: each definition speaks of a syntax.
#[derive(Clone, Copy, Debug, PartialEq, Eq)]
pub struct Separated {
    pub separator: NonZeroU8,
    pub radix: u8,
    pub flags: Flags,
}

impl Separated {
    fn of(syntax: Syntax) -> Option<Separated>
        ensures { MatchOption result (syntax.separator ≡ 0) (λ x. syntax_in x ≡ syntax) }
    {
        let separator = NonZeroU8::new(syntax.separator)?;
        Some(Separated {
            separator,
            radix: syntax.radix,
            flags: syntax.flags,
        })
    }

    fn syntax(self) -> Syntax
        ensures { result ≡ syntax_in self }
    {
        Syntax {
            separator: self.separator.get(),
            radix: self.radix,
            flags: self.flags,
        }
    }
}

// The flags of a reader. The special reader has one flag, which stands for all four. An arm for each: the word's methods differ in name.
pub(crate) fn flags_of(format: Format, reader: Reader) -> Flags
    ensures { result ≡ flags_of format reader }
{
    match reader {
        Reader::Integer => Flags {
            internal: format.integer_internal_digit_separator(),
            leading: format.integer_leading_digit_separator(),
            trailing: format.integer_trailing_digit_separator(),
            consecutive: format.integer_consecutive_digit_separator(),
        },
        Reader::Fraction => Flags {
            internal: format.fraction_internal_digit_separator(),
            leading: format.fraction_leading_digit_separator(),
            trailing: format.fraction_trailing_digit_separator(),
            consecutive: format.fraction_consecutive_digit_separator(),
        },
        Reader::Exponent => Flags {
            internal: format.exponent_internal_digit_separator(),
            leading: format.exponent_leading_digit_separator(),
            trailing: format.exponent_trailing_digit_separator(),
            consecutive: format.exponent_consecutive_digit_separator(),
        },
        Reader::Special => {
            let special = format.special_digit_separator();
            Flags {
                internal: special,
                leading: special,
                trailing: special,
                consecutive: special,
            }
        }
    }
}

pub(crate) fn syntax_of(format: Format, reader: Reader) -> Syntax
    ensures { result ≡ syntax_of format reader }
{
    let flags = flags_of(format, reader);
    Syntax {
        separator: format.digit_separator(),
        radix: mantissa_radix_byte(format),
        flags,
    }
}

// What a state says to one reader.
pub fn syntax_for(state: State, reader: Reader) -> Syntax
    ensures { result ≡ syntax_for state reader }
{
    syntax_of(state.format, reader)
}

// Beyond either end there is no byte.
fn absent() -> Neighbour
    ensures { (syntax : Syntax) → result ≡ neighbour_of (reading_with syntax) None }
{
    Neighbour {
        exists: false,
        digit: false,
        separator: false,
    }
}

// What a rule asks of a byte.
fn neighbour(syntax: Syntax, b: u8) -> Neighbour
    ensures { result ≡ neighbour_of (reading_with syntax) (Some b) }
{
    Neighbour {
        exists: true,
        digit: char_is_digit_by_table(b, syntax.radix),
        separator: (syntax.separator != 0) & (b == syntax.separator),
    }
}

// The same of the byte at an index, which may lie past every buffer.
fn neighbour_at(s: &[u8], syntax: Syntax, i: usize) -> Neighbour
    ensures { result ≡ neighbour_of (reading_with syntax) (byte_at s.now i) }
{
    match s.get(i) {
        Some(b) => neighbour(syntax, *b),
        None => absent(),
    }
}

// The index before a place. Before place 0 it wraps, lies past every buffer and so finds no byte.
fn index_before(at: usize) -> usize
    ensures { result ≡ (at + (2 ^ 64 - 1)) % 2 ^ 64 }
{
    at.wrapping_sub(1)
}

// The index of the nearest byte before a place that is no separator. By index and no iterator backwards: document 01 wants the previous
// index by a subtract that wraps.
fn previous_other(s: &[u8], separator: NonZeroU8, at: usize) -> usize
    requires { at ≤ length s.now }
    ensures { byte_at s.now result ≡ first_other (non_zero_u8_get separator) (before s.now at) }
{
    let byte = separator.get();
    let mut i = index_before(at);
    while i < s.len() {
        if s[i] != byte {
            return i;
        }
        i = index_before(i);
    }
    i
}

// The first index from a place on whose byte is no separator, or the end.
fn run_end(s: &[u8], separator: NonZeroU8, at: usize) -> usize
    requires { at ≤ length s.now }
    ensures { (result ≡ at + separator_run (non_zero_u8_get separator) (drop at s.now)) × (result ≤ length s.now) }
{
    let found = search_from(s, separator, at);
    found.end
}

// The neighbour before a place: the byte just before, or with the consecutive flag the nearest one that is no separator. Where it is
// not wanted no byte is read.
fn previous_neighbour(s: &[u8], separated: Separated, wanted: bool, at: usize) -> Neighbour
    requires { at ≤ length s.now }
    ensures { result ≡ (if wanted then previous (reading_with (syntax_in separated)) s.now at else neighbour_of (reading_with (syntax_in separated)) None) }
{
    if !wanted {
        return absent();
    }
    if separated.flags.consecutive {
        let other = previous_other(s, separated.separator, at);
        return neighbour_at(s, separated.syntax(), other);
    }
    let i = index_before(at);
    neighbour_at(s, separated.syntax(), i)
}

// The neighbour after a place, likewise.
fn next_neighbour(s: &[u8], separated: Separated, wanted: bool, at: usize) -> Neighbour
    requires { at < length s.now }
    ensures { result ≡ (if wanted then following (reading_with (syntax_in separated)) s.now at else neighbour_of (reading_with (syntax_in separated)) None) }
{
    if !wanted {
        return absent();
    }
    let i = at + 1;
    if separated.flags.consecutive {
        let other = run_end(s, separated.separator, i);
        return neighbour_at(s, separated.syntax(), other);
    }
    neighbour_at(s, separated.syntax(), i)
}

// Whether the rule lets the separator at a place be passed. Only the neighbours that it names are looked at.
fn passes(s: &[u8], separated: Separated, first: bool, at: usize) -> bool
    requires { at < length s.now }
    ensures { result ≡ rule_of separated.flags first (previous (reading_with (syntax_in separated)) s.now at) (following (reading_with (syntax_in separated)) s.now at) }
{
    let named = rule::names_of(separated.flags, first);
    let earlier = previous_neighbour(s, separated, named.previous, at);
    let next = next_neighbour(s, separated, named.next, at);
    rule::rule(separated.flags, first, earlier, next)
}

// Where a cursor lands that passes what it may at a place. Most bytes are no separator, so that compare stands first; a separator 0,
// which stands for none, is told apart after it.
pub(crate) fn landing(s: &[u8], syntax: Syntax, first: bool, at: usize) -> usize
    requires { at ≤ length s.now }
    ensures { (result ≡ at + passed_at (reading_with syntax) s.now first at) × (result ≤ length s.now) }
{
    if s.len() <= at {
        return at;
    }
    let b = s[at];
    if b != syntax.separator {
        return at;
    }
    let Some(separated) = Separated::of(syntax) else {
        return at;
    };
    let may = passes(s, separated, first, at);
    if !may {
        return at;
    }
    behind(s, separated, at)
}

// Where the byte behind a separator stands that its rule looks at; it is also where a cursor lands that passes there.
fn behind(s: &[u8], separated: Separated, at: usize) -> usize
    requires { (at < length s.now) × (slice_index s.now at ≡ (syntax_in separated).separator) }
    ensures { (byte_at s.now result ≡ nearest (syntax_in separated).separator separated.flags.consecutive (after s.now at)) × (result ≡ at + (if separated.flags.consecutive then separator_run (syntax_in separated).separator (drop at s.now) else 1)) × (result ≤ length s.now) }
{
    if separated.flags.consecutive {
        return run_end(s, separated.separator, at);
    }
    at + 1
}

// Where a cursor lands at a separator once its reader has counted: no byte before it matters, and none at all where the rule never
// holds.
fn later_landing(s: &[u8], syntax: Syntax, later: Later, at: usize) -> usize
    requires { IsLater syntax.flags later × (at < length s.now) × (slice_index s.now at ≡ syntax.separator) }
    ensures { (result ≡ at + passed_at (reading_with syntax) s.now false at) × (result ≤ length s.now) }
{
    let Some(separated) = Separated::of(syntax) else {
        return at;
    };
    let never = later.0 == 0;
    if never {
        return at;
    }
    let place = behind(s, separated, at);
    let next = neighbour_at(s, syntax, place);
    if later.passes_before(next) {
        return place;
    }
    at
}

// Where a cursor lands at a separator, in a loop over many bytes: most of them are read once the reader has counted, and the rule for
// those is read before the loop.
pub(crate) fn separator_landing(
    s: &[u8],
    syntax: Syntax,
    later: Later,
    first: bool,
    at: usize,
) -> usize
    requires { IsLater syntax.flags later × (at < length s.now) × (slice_index s.now at ≡ syntax.separator) }
    ensures { (result ≡ at + passed_at (reading_with syntax) s.now first at) × (result ≤ length s.now) }
{
    if first {
        return landing(s, syntax, true, at);
    }
    later_landing(s, syntax, later, at)
}

// Where takes come to behind a byte that is taken. A separator that is refused is taken itself; with the consecutive flag the rest of
// its run is refused too, since each of its separators has the same neighbours.
pub(crate) fn past_taken(s: &[u8], syntax: Syntax, refused: bool, at: usize) -> usize
    requires { (at < length s.now) × (refused ≡ true → slice_index s.now at ≡ syntax.separator) }
    ensures { (result ≡ at + (if refused && not (syntax.separator == 0) then (if syntax.flags.consecutive then separator_run syntax.separator (drop at s.now) else 1) else 1)) × (at < result) × (result ≤ length s.now) }
{
    if !refused {
        return at + 1;
    }
    let Some(separated) = Separated::of(syntax) else {
        return at + 1;
    };
    behind(s, separated, at)
}
