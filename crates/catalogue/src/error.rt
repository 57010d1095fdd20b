// Why an addition or a removal is refused.
ghost use Rattle.std.specs.Prelude.{◌≡◌};
ghost use Rattle.catalogue.specs.Catalogue.{error_number};
ghost use Rattle.catalogue.specs.declared.error.CatalogueError.TheVariants.{InvalidWord};

use word::error::Error;

#[derive(Clone, Copy, Debug, PartialEq, Eq)]
pub enum CatalogueError {
    InvalidWord(Error),
    InvalidSchool,
    Full,
    NotListed,
}

impl CatalogueError {
    // Its number in the log.
    pub fn number(self) -> u32
        ensures { result ≡ error_number self }
    {
        match self {
            CatalogueError::InvalidWord(error) => error.number(),
            CatalogueError::InvalidSchool => 25,
            CatalogueError::Full => 26,
            CatalogueError::NotListed => 27,
        }
    }
}

impl From<Error> for CatalogueError {
    ghost from_gives = { λ error e. e ≡ InvalidWord error };

    fn from(error: Error) -> CatalogueError {
        CatalogueError::InvalidWord(error)
    }
}
