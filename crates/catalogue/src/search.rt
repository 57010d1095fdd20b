// The search for a school's place: behind the entries with smaller numbers. No `binary_search`: any block may come in, and its answer is by
// the entries in their order (docs/DECISIONS.md, 82).
ghost use Rattle.std.specs.Prelude.{◌≡◌, ◌+◌, ◌<◌, ◌≤◌, MatchResult};
ghost use Rattle.catalogue.specs.Catalogue.{listing, size};
ghost use Rattle.catalogue.specs.Block.{catalogue_in};
ghost use Rattle.catalogue.specs.Code.Search.{before, Passed, StandsAt, BelongsAt};

use crate::entries::listed;

// Goes over so many entries from a place on, as far as their numbers are smaller than the school: how many it passes.
fn pass(words: &[u64; 194], at: usize, count: usize, school: u64) -> usize
    requires { (at + count ≤ size (catalogue_in words.now)) × (at + count ≤ 64) × Passed (catalogue_in words.now) school at }
    ensures within { result ≤ count }
    ensures passed { Passed (catalogue_in words.now) school (at + result) }
    ensures found { result < count → at + result ≡ before school (listing (catalogue_in words.now)) }
{
    for more in 0..count {
        let here = 2 + 3 * (at + more);
        let ends = words[here] >= school;
        if ends {
            return more;
        }
    }
    count
}

// The place of a school's entry: behind those with a smaller number. Eight entries at a time are tested one right after the other, with
// nothing counted in between: an iterator's `position` goes an entry a turn, which is slower (82).
fn place_of(words: &[u64; 194], school: u64) -> usize
    ensures { (result ≡ before school (listing (catalogue_in words.now))) × (result ≤ size (catalogue_in words.now)) }
{
    let len = listed(words);
    let mut at = 0;
    while at + 8 <= len {
        let more = pass(words, at, 8, school);
        at += more;
        if more < 8 {
            return at;
        }
    }
    at + pass(words, at, len - at, school)
}

// The place of a listed school's entry, or the place where one would be put, as `binary_search` of a slice tells it.
pub(crate) fn seek(words: &[u64; 194], school: u64) -> Result<usize, usize>
    ensures { MatchResult result (StandsAt (catalogue_in words.now) school) (BelongsAt (catalogue_in words.now) school) }
{
    let at = place_of(words, school);
    if at < listed(words) {
        let here = 2 + 3 * at;
        let own = words[here] == school;
        if own {
            return Ok(at);
        }
    }
    Err(at)
}
