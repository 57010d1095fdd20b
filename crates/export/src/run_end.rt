// The end of a run of separators, sought as the readers seek it, with the steps of the search.
ghost use Rattle.std.specs.Prelude.{◌≡◌};
ghost use Rattle.reader.specs.Search.{run_search_of};

use reader::search::search_run;

// Writes where the run from a place on ends, and how many steps over eight bytes and over one led there. Nothing is refused: with
// separator 0, and from a place past the end, there is no run.
#[unsafe(no_mangle)]
pub extern "C" fn pawhetino_run_end(
    s: &[u8],
    separator: u8,
    at: usize,
    end: &mut usize,
    eights: &mut usize,
    ones: &mut usize,
)
    ensures { record { end = end.new; eights = eights.new; ones = ones.new } ≡ run_search_of separator s.now at }
{
    let found = search_run(s, separator, at);
    *end = found.end;
    *eights = found.eights;
    *ones = found.ones;
}
