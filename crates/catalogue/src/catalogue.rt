// A catalogue of the caller's own: the same calls as methods. Those over lent words stay, for C lends an array.
ghost use Rattle.std.specs.Prelude.{◌≡◌};
ghost use Rattle.catalogue.specs.Catalogue.{empty_catalogue, size, word_in, entry_in, add_number, added, remove_number, removed, answer_number};
ghost use Rattle.catalogue.specs.Block.{catalogue_in, words_of};

use crate::entries::Entry;
use crate::error::CatalogueError;
use crate::{acts, lookup};
use word::format_flags::Format;

#[derive(Clone, Copy, Debug, PartialEq, Eq)]
pub struct Catalogue {
    pub words: [u64; 194],
}

impl Catalogue {
    pub fn empty() -> Self
        ensures { result.words ≡ words_of empty_catalogue }
    {
        let words = [0; 194];
        Catalogue { words }
    }

    pub fn add(&mut self, school: u16, format: Format) -> Result<(), CatalogueError>
        ensures number { answer_number result ≡ add_number (catalogue_in self.old.words) school format }
        ensures changed { self.new.words ≡ words_of (added (catalogue_in self.old.words) school format) }
    {
        acts::add(&mut self.words, school, format)
    }

    pub fn remove(&mut self, school: u16) -> Result<(), CatalogueError>
        ensures number { answer_number result ≡ remove_number (catalogue_in self.old.words) school }
        ensures changed { self.new.words ≡ words_of (removed (catalogue_in self.old.words) school) }
    {
        acts::remove(&mut self.words, school)
    }

    pub fn find(&self, school: u16) -> Option<Format>
        ensures { result ≡ word_in (catalogue_in self.now.words) school }
    {
        lookup::find(&self.words, school)
    }

    pub fn entry(&self, i: usize) -> Option<Entry>
        ensures { result ≡ entry_in (catalogue_in self.now.words) i }
    {
        lookup::entry(&self.words, i)
    }

    pub fn len(&self) -> usize
        ensures { result ≡ size (catalogue_in self.now.words) }
    {
        lookup::len(&self.words)
    }

    pub fn separators(&self) -> u64
        ensures { result ≡ (catalogue_in self.now.words).tally }
    {
        lookup::separators(&self.words)
    }
}
