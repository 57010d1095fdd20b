// Digit runs. Most cells are decimal, are read from a fresh state and begin with a digit, and each of their separators stands right before
// one: such cells go by numbers, and nothing is asked of the rule table.
ghost use Rattle.std.specs.Prelude.{◌≡◌, [], ◌∷◌, ◌+◌, ◌*◌, ◌-◌, ◌<◌, ◌≤◌, cond, nat_eq, Some, None, IfSome};
ghost use Rattle.export.specs.State.{state_words};
ghost use Rattle.export.specs.Answer.{value_words};
ghost use Rattle.export.specs.Calls.{digit_run_by};
ghost use Rattle.export.specs.Code.Reply.{run_told};
ghost use Rattle.export.specs.Code.FreshWords.{end_words};
ghost use Rattle.export.specs.Code.GroupedRun.{GroupedRun as Run};

use crate::fresh::{fresh_format, put_counted};
use crate::reply::{Tell, Told, served};
use cells::digit_run::digit_run;
use word::digit::char_is_digit_by_range;
use word::format_flags::mantissa_radix_byte;

// The value of the digits.
impl Tell for u64 {
    ghost told_as = { run_told };

    fn told(self) -> Told {
        Told {
            how: 1,
            value: Some(self),
        }
    }
}

// As the reader answers it; called at each way out of the quick way, as that of takes to the end is.
fn digit_run_any(s: &[u8], reader: u8, state: &mut [u64; 8], answer: &mut [u64; 4]) -> u32
    ensures number { result ≡ (digit_run_by reader state.old s.now).refusal }
    ensures moved { state.new ≡ state_words state.old (digit_run_by reader state.old s.now).state }
    ensures written { answer.new ≡ value_words answer.old (digit_run_by reader state.old s.now) }
{
    served(
        reader,
        &mut *state,
        &mut *answer,
        |here, x| digit_run(s, here, x),
    )
}

// What the digits of a grouped cell come to: where they end, their value, how many they are and the separators passed.
#[derive(Clone, Copy, Debug, PartialEq, Eq)]
pub struct GroupedRun {
    pub at: usize,
    pub value: u64,
    pub count: usize,
    pub passed: usize,
}

// It is one if it has a digit: what was gone over and not passed was taken.
fn grouped(at: usize, value: u64, passed: usize) -> Option<GroupedRun>
    requires { passed ≤ at }
    ensures { result ≡ cond (nat_eq at 0) None (Some (record { at = at; value = value; count = at - passed; passed = passed })) }
{
    let none = at == 0;
    if none {
        return None;
    }
    let count = at - passed;
    Some(GroupedRun {
        at,
        value,
        count,
        passed,
    })
}

// From this on a figure more may take a value above 64 bits.
const LARGE: u64 = u64::MAX / 10;

// The value with a figure behind it.
fn with_figure(value: u64, b: u8) -> u64
    requires { (value < 1844674407370955161) × ((48 ≤ b) × (b ≤ 57)) }
    ensures { result ≡ value * 10 + (b - 48) }
{
    value * 10 + u64::from(b - 48)
}

// The digits of a decimal cell. The loop looks at the byte behind a separator too, so it goes by an index.
fn grouped_run(s: &[u8], separator: u8) -> Option<GroupedRun>
    ensures { IfSome result (λ run. Run separator 10 s.now run.at run.value run.count run.passed) }
{
    let mut at: usize = 0;
    let mut value: u64 = 0;
    let mut passed: usize = 0;
    while at < s.len() {
        let b = s[at];
        if b == separator {
            let n = at + 1;
            if s.len() <= n {
                return None;
            }
            let early = at == 0;
            if early {
                return None;
            }
            let c = s[n];
            let double = c == separator;
            let before_digit = char_is_digit_by_range(c, 10);
            if double | !before_digit {
                return None;
            }
            passed += 1;
            at = n;
            continue;
        }
        let figure = char_is_digit_by_range(b, 10);
        if !figure {
            return grouped(at, value, passed);
        }
        if LARGE <= value {
            return None;
        }
        value = with_figure(value, b);
        at += 1;
    }
    grouped(at, value, passed)
}

// Writes what a run of digits has come to, from a fresh state.
fn put_run(reader: u8, run: GroupedRun, state: &mut [u64; 8], answer: &mut [u64; 4]) -> u32
    ensures number { result ≡ 0 }
    ensures moved { state.new ≡ end_words reader run.at run.count state.old }
    ensures written { answer.new ≡ (1 ∷ run.value ∷ run.count ∷ run.passed ∷ []) }
{
    put_counted(reader, run.at, run.count, &mut *state);
    let count = run.count as u64;
    let passed = run.passed as u64;
    *answer = [1, run.value, count, passed];
    0
}

// Takes the digits under the cursor, until a peek sees another byte or the end: their exact value.
#[unsafe(no_mangle)]
pub extern "C" fn pawhetino_digit_run(
    s: &[u8],
    reader: u8,
    state: &mut [u64; 8],
    answer: &mut [u64; 4],
) -> u32
    ensures number { result ≡ (digit_run_by reader state.old s.now).refusal }
    ensures moved { state.new ≡ state_words state.old (digit_run_by reader state.old s.now).state }
    ensures written { answer.new ≡ value_words answer.old (digit_run_by reader state.old s.now) }
{
    let Some(format) = fresh_format(reader, &*state) else {
        return digit_run_any(&s[..], reader, &mut *state, &mut *answer);
    };
    let lettered = mantissa_radix_byte(format) != 10;
    if lettered {
        return digit_run_any(&s[..], reader, &mut *state, &mut *answer);
    }
    match grouped_run(s, format.digit_separator()) {
        Some(run) => put_run(reader, run, &mut *state, &mut *answer),
        None => digit_run_any(&s[..], reader, &mut *state, &mut *answer),
    }
}
