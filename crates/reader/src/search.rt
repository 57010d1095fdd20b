// The search for the end of a run of separators: eight bytes at a time, the tail singly, with its steps counted.
ghost use Rattle.std.specs.Prelude.{◌≡◌, ◌+◌, ◌*◌, ◌/◌, ◌≤◌, length};
ghost use Rattle.std.specs.Int.NonZero.{non_zero_u8_get};
ghost use Rattle.reader.specs.Place.{separator_run};
ghost use Rattle.reader.specs.Search.{run_search_of};

use std::num::NonZeroU8;

// The end of a run, and how many steps over eight bytes and over one led to it.
#[derive(Clone, Copy, Debug, PartialEq, Eq)]
pub struct RunSearch {
    pub end: usize,
    pub eights: usize,
    pub ones: usize,
}

// Over eights, as long as all of the eight are separators: the compare is compiled to one of two numbers.
fn eight_steps(s: &[u8], separator: NonZeroU8) -> usize
    ensures { (result ≡ separator_run (non_zero_u8_get separator) s.now / 8) × (8 * result ≤ length s.now) }
{
    let byte = separator.get();
    let all = [byte; 8];
    let (eights, _) = s.as_chunks::<8>();
    let found = eights.iter().position(|eight| *eight != all);
    found.unwrap_or(eights.len())
}

// Over single separators.
fn single_steps(s: &[u8], separator: NonZeroU8) -> usize
    ensures { (result ≡ separator_run (non_zero_u8_get separator) s.now) × (result ≤ length s.now) }
{
    let byte = separator.get();
    let found = s.iter().position(|b| *b != byte);
    found.unwrap_or(s.len())
}

// The search from a place within the slice. What is compiled counts by each loop's index alone.
pub(crate) fn search_from(s: &[u8], separator: NonZeroU8, at: usize) -> RunSearch
    requires { at ≤ length s.now }
    ensures { (result ≡ run_search_of (non_zero_u8_get separator) s.now at) × (result.end ≤ length s.now) }
{
    let rest = &s[at..];
    let eights = eight_steps(rest, separator);
    let over = 8 * eights;
    let ones = single_steps(&rest[over..], separator);
    RunSearch {
        end: at + over + ones,
        eights,
        ones,
    }
}

// The search from any place, for any separator.
pub fn search_run(s: &[u8], separator: u8, at: usize) -> RunSearch
    ensures { result ≡ run_search_of separator s.now at }
{
    let no_run = RunSearch {
        end: at,
        eights: 0,
        ones: 0,
    };
    let Some(separator) = NonZeroU8::new(separator) else {
        return no_run;
    };
    if s.len() <= at {
        return no_run;
    }
    search_from(s, separator, at)
}
