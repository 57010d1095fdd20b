// What is asked of a catalogue that the caller lends: a school's word, the listing, how long it is, and the tally.
ghost use Rattle.std.specs.Prelude.{◌≡◌};
ghost use Rattle.catalogue.specs.Catalogue.{size, word_in, entry_in};
ghost use Rattle.catalogue.specs.Block.{catalogue_in};

use crate::entries::{Entry, entry_at, listed};
use crate::search::seek;
use word::format_flags::Format;

// The word of a school. A match: behind `.ok()` it would have to be proved again what the search says of the place.
pub fn find(words: &[u64; 194], school: u16) -> Option<Format>
    ensures { result ≡ word_in (catalogue_in words.now) school }
{
    match seek(words, u64::from(school)) {
        Ok(at) => Some(entry_at(words, at).format),
        Err(_) => None,
    }
}

// The listing's entry at a place, counted from 0.
pub fn entry(words: &[u64; 194], i: usize) -> Option<Entry>
    ensures { result ≡ entry_in (catalogue_in words.now) i }
{
    let len = listed(words);
    if i < len {
        return Some(entry_at(words, i));
    }
    None
}

// How many schools are listed.
pub fn len(words: &[u64; 194]) -> usize
    ensures { result ≡ size (catalogue_in words.now) }
{
    listed(words)
}

// How many of their sheets use a separator, as it is kept.
pub fn separators(words: &[u64; 194]) -> u64
    ensures { result ≡ (catalogue_in words.now).tally }
{
    words[1]
}
