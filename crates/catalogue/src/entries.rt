// The entries of a lent catalogue: three words each, behind the two of how many are listed and of the tally. The place of an entry is written
// as the sum that it is, here and in the other files: the laws are about that sum.
ghost use Rattle.std.specs.Prelude.{◌≡◌, [], ◌∷◌, ◌+◌, ◌*◌, ◌<◌, ◌≤◌, slice_index_or};
ghost use Rattle.std.proofs.lemmas.List.Edits.{sets};
ghost use Rattle.catalogue.specs.Catalogue.{size, no_entry};
ghost use Rattle.catalogue.specs.Block.{catalogue_in, entry_words};

use word::format_flags::Format;

// A school and the format word of its sheet. The number is as it stands in the block: from 1 to 65,535 in every catalogue that comes from
// an empty one.
#[derive(Clone, Copy, Debug, PartialEq, Eq)]
pub struct Entry {
    pub school: u64,
    pub format: Format,
}

// How many entries are listed. A block made otherwise may claim more than there are places. `as` is proved to keep the number, where
// `try_from` would answer an error that cannot come; so are those of acts.rt.
pub(crate) fn listed(words: &[u64; 194]) -> usize
    ensures { (result ≡ size (catalogue_in words.now)) × (result ≤ 64) }
{
    words[0].min(64) as usize
}

pub(crate) fn entry_at(words: &[u64; 194], at: usize) -> Entry
    requires { at < 64 }
    ensures { result ≡ slice_index_or (catalogue_in words.now).places at no_entry }
{
    let here = 2 + 3 * at;
    let school = words[here];
    let lo = words[here + 1];
    let hi = words[here + 2];
    Entry {
        school,
        format: Format { lo, hi },
    }
}

pub(crate) fn put_entry(words: &mut [u64; 194], at: usize, sheet: Entry)
    requires { at < 64 }
    ensures { words.new ≡ sets words.old (2 + 3 * at) (entry_words (sheet ∷ [])) }
{
    let here = 2 + 3 * at;
    let format = sheet.format;
    words[here] = sheet.school;
    words[here + 1] = format.lo;
    words[here + 2] = format.hi;
}
