// The catalogue of school sheets, in 194 words that the caller lends: how many schools are listed, the tally, then school, lo and hi of
// each of 64 places. The calls work on them where they lie.
ghost use Rattle.std.specs.Prelude.{◌≡◌};
ghost use Rattle.catalogue.specs.Catalogue.{empty_catalogue, size, word_in, entry_in, add_number, added, remove_number, removed, answer_number};
ghost use Rattle.catalogue.specs.Block.{catalogue_in, words_of};
ghost use Rattle.export.specs.Catalogue.{number_found, halves_found, entry_found};

use catalogue::acts::{add, remove};
use catalogue::error::CatalogueError;
use catalogue::lookup::{entry, find, len, separators};
use word::format_flags::Format;

// Writes an empty catalogue, whatever the words were.
#[unsafe(no_mangle)]
pub extern "C" fn pawhetino_catalogue_empty(words: &mut [u64; 194])
    ensures { words.new ≡ words_of empty_catalogue }
{
    *words = [0; 194];
}

// 0, or the number of the error.
fn number_in(done: Result<(), CatalogueError>) -> u32
    ensures { result ≡ answer_number done }
{
    match done {
        Ok(()) => 0,
        Err(error) => error.number(),
    }
}

// Adds a school with its format word: 0, or 1 to 14 as by the full check, then 25, then 26. A refused addition changes nothing.
#[unsafe(no_mangle)]
pub extern "C" fn pawhetino_catalogue_add(
    words: &mut [u64; 194],
    school: u16,
    lo: u64,
    hi: u64,
) -> u32
    ensures number { result ≡ add_number (catalogue_in words.old) school (record { lo = lo; hi = hi }) }
    ensures written { words.new ≡ words_of (added (catalogue_in words.old) school (record { lo = lo; hi = hi })) }
{
    number_in(add(words, school, Format { lo, hi }))
}

// Removes a school: 0, or 27, and then nothing is changed.
#[unsafe(no_mangle)]
pub extern "C" fn pawhetino_catalogue_remove(words: &mut [u64; 194], school: u16) -> u32
    ensures number { result ≡ remove_number (catalogue_in words.old) school }
    ensures written { words.new ≡ words_of (removed (catalogue_in words.old) school) }
{
    number_in(remove(words, school))
}

// The halves of a listed school's word: 0, or 27, and then nothing is written.
#[unsafe(no_mangle)]
pub extern "C" fn pawhetino_catalogue_find(
    words: &[u64; 194],
    school: u16,
    word: &mut [u64; 2],
) -> u32
    ensures number { result ≡ number_found (word_in (catalogue_in words.now) school) }
    ensures written { word.new ≡ halves_found word.old (word_in (catalogue_in words.now) school) }
{
    match find(words, school) {
        Some(format) => {
            *word = [format.lo, format.hi];
            0
        }
        None => CatalogueError::NotListed.number(), // not listed
    }
}

// The listing's entry at a place counted from 0, as school, lo and hi: 0, or 27 past the last one, and then nothing is written.
#[unsafe(no_mangle)]
pub extern "C" fn pawhetino_catalogue_entry(words: &[u64; 194], i: usize, row: &mut [u64; 3]) -> u32
    ensures number { result ≡ number_found (entry_in (catalogue_in words.now) i) }
    ensures written { row.new ≡ entry_found row.old (entry_in (catalogue_in words.now) i) }
{
    match entry(words, i) {
        Some(sheet) => {
            let format = sheet.format;
            *row = [sheet.school, format.lo, format.hi];
            0
        }
        None => CatalogueError::NotListed.number(), // past the last one
    }
}

// How many schools are listed.
#[unsafe(no_mangle)]
pub extern "C" fn pawhetino_catalogue_len(words: &[u64; 194]) -> usize
    ensures { result ≡ size (catalogue_in words.now) }
{
    len(words)
}

// How many of their sheets use a separator, as it is kept.
#[unsafe(no_mangle)]
pub extern "C" fn pawhetino_catalogue_separators(words: &[u64; 194]) -> u64
    ensures { result ≡ (catalogue_in words.now).tally }
{
    separators(words)
}
