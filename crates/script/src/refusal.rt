// Why a run stops.
ghost use Rattle.std.specs.Prelude.{◌≡◌};
ghost use Rattle.script.specs.Run.{refusal_number};

// With their numbers in document 01.
#[derive(Clone, Copy, Debug, PartialEq, Eq)]
pub enum Refusal {
    // The kind, or a reader byte.
    Unknown = 19,
    CutShort = 20,
    OutOfTurn = 21,
    TextFull = 22,
}

impl Refusal {
    // Its number in document 01.
    pub fn number(self) -> u32
        ensures { result ≡ refusal_number self }
    {
        self as u32
    }
}
