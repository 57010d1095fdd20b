// Additions and removals, in a catalogue that the caller lends.
ghost use Rattle.std.specs.Prelude.{◌≡◌, ◌<◌, ◌≤◌};
ghost use Rattle.word.specs.Check.{full_check};
ghost use Rattle.catalogue.specs.Entries.{uses};
ghost use Rattle.catalogue.specs.Catalogue.{size, raised, with_entry, add_number, added, remove_number, removed, answer_number};
ghost use Rattle.catalogue.specs.Block.{catalogue_in, words_of};
ghost use Rattle.catalogue.specs.Code.Search.{StandsAt, BelongsAt};

use crate::entries::{Entry, entry_at, listed, put_entry};
use crate::error::CatalogueError;
use crate::search::seek;
use word::format_flags::Format;

// What a sheet adds to the tally.
fn uses_separator(format: Format) -> u64
    ensures { (result ≡ uses format) × (result ≤ 1) }
{
    u64::from(format.digit_separator() != 0)
}

// The tally with one sheet more.
fn raise(tally: u64, more: u64) -> u64
    requires { more ≤ 1 }
    ensures { result ≡ raised tally more }
{
    if tally < 64 { tally + more } else { tally }
}

// Puts an entry at its place; those behind it move up.
fn insert(words: &mut [u64; 194], at: usize, sheet: Entry)
    requires { (size (catalogue_in words.old) < 64) × BelongsAt (catalogue_in words.old) sheet.school at }
    ensures { words.new ≡ words_of (with_entry (catalogue_in words.old) sheet) }
{
    let len = listed(words);
    let from = 2 + 3 * at;
    let to = 2 + 3 * len;
    let more = uses_separator(sheet.format);
    let tally = raise(words[1], more);
    words.copy_within(from..to, from + 3);
    put_entry(words, at, sheet);
    words[0] = (len + 1) as u64;
    words[1] = tally;
}

// Takes the entry of a listed school away; those behind it move down, and the place that they leave is freed. In a catalogue made otherwise
// the tally may be 0 already.
fn take_out(words: &mut [u64; 194], at: usize, school: u64)
    requires { StandsAt (catalogue_in words.old) school at }
    ensures { words.new ≡ words_of (removed (catalogue_in words.old) school) }
{
    let last = listed(words) - 1;
    let from = 2 + 3 * at;
    let to = 2 + 3 * last;
    let gone = entry_at(words, at);
    let less = uses_separator(gone.format);
    let tally = words[1].saturating_sub(less);
    let free = Entry {
        school: 0,
        format: Format { lo: 0, hi: 0 },
    };
    words.copy_within(from + 3..to + 3, from);
    put_entry(words, last, free);
    words[0] = last as u64;
    words[1] = tally;
}

// An addition whose word has passed the check.
fn add_checked(words: &mut [u64; 194], school: u64, format: Format) -> Result<(), CatalogueError>
    requires { full_check format ≡ 0 }
    ensures number { answer_number result ≡ add_number (catalogue_in words.old) school format }
    ensures written { words.new ≡ words_of (added (catalogue_in words.old) school format) }
{
    let unnamed = school == 0;
    if unnamed {
        return Err(CatalogueError::InvalidSchool);
    }
    match seek(words, school) {
        Ok(_) => Err(CatalogueError::InvalidSchool),
        Err(at) => {
            let room = listed(words) < 64;
            if room {
                insert(words, at, Entry { school, format });
                return Ok(());
            }
            Err(CatalogueError::Full)
        }
    }
}

// Adds a school with its format word.
pub fn add(words: &mut [u64; 194], school: u16, format: Format) -> Result<(), CatalogueError>
    ensures number { answer_number result ≡ add_number (catalogue_in words.old) school format }
    ensures written { words.new ≡ words_of (added (catalogue_in words.old) school format) }
{
    format.check()?;
    add_checked(words, u64::from(school), format)
}

// Removes a school. A match, as in the look-up: the search says of each case what is removed.
pub fn remove(words: &mut [u64; 194], school: u16) -> Result<(), CatalogueError>
    ensures number { answer_number result ≡ remove_number (catalogue_in words.old) school }
    ensures written { words.new ≡ words_of (removed (catalogue_in words.old) school) }
{
    let school = u64::from(school);
    let place = seek(words, school);
    match place {
        Ok(at) => {
            take_out(words, at, school);
            Ok(())
        }
        Err(_) => Err(CatalogueError::NotListed),
    }
}
