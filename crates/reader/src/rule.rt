// The rule table: where a reader may pass a separator, by its flags and what is known of the separator's neighbours. One table in
// place of the fourteen macros of lexical-util's skip.rs.
ghost use Rattle.std.specs.Prelude.{◌≡◌, ◌<◌};
ghost use Rattle.word.specs.Bits.{bit};
ghost use Rattle.reader.specs.Reading.{has_any_flag, is_consecutive_alone};
ghost use Rattle.reader.specs.Rule.{rule_of, names_of};
ghost use Rattle.reader.specs.Code.RuleWords.{cell_of, code_of, IsEntry, IsLater};

use word::format_flags::bit_at;

// Where a reader may pass separators.
#[derive(Clone, Copy, Debug, PartialEq, Eq)]
pub struct Flags {
    pub internal: bool,
    pub leading: bool,
    pub trailing: bool,
    pub consecutive: bool,
}

impl Flags {
    // Whether the reader has any flag.
    pub fn has_any(self) -> bool
        ensures { result ≡ has_any_flag self }
    {
        self.internal | self.leading | self.trailing | self.consecutive
    }

    // Whether its consecutive flag is all it has.
    pub fn is_consecutive_alone(self) -> bool
        ensures { result ≡ is_consecutive_alone self }
    {
        self.consecutive & !self.internal & !self.leading & !self.trailing
    }
}

// What a rule asks of a separator's neighbour. No Option: the rules ask for a digit or a separator also where there is no neighbour,
// and the bits of an entry are numbered by all three.
#[derive(Clone, Copy, Debug, PartialEq, Eq)]
pub struct Neighbour {
    pub exists: bool,
    pub digit: bool,
    pub separator: bool,
}

// Which neighbours a rule looks at.
#[derive(Clone, Copy, Debug, PartialEq, Eq)]
pub struct Wanted {
    pub previous: bool,
    pub next: bool,
}

// The rule of a reader that has counted: the entry of its cell. Without a bit it never holds.
#[derive(Clone, Copy, Debug, PartialEq, Eq)]
pub struct Later(pub u64);

// The cells whose rule looks at the byte before the separator, and those that look at the byte after it.
const NAMES_PREVIOUS: u64 = 0x14545554;

const NAMES_NEXT: u64 = 0x37CCFFDC;

// The number of a neighbour, by which an entry of the table is read.
fn code_of(p: Neighbour) -> u32
    ensures { (result ≡ code_of p) × (result < 8) }
{
    u32::from(p.exists) + 2 * u32::from(p.digit) + 4 * u32::from(p.separator)
}

// The number of the table's cell for a reader with these flags: first while its count is 0, later otherwise.
fn cell_of(flags: Flags, first: bool) -> u32
    ensures { (result ≡ cell_of flags first) × (result < 32) }
{
    u32::from(!first)
        + 2 * u32::from(flags.internal)
        + 4 * u32::from(flags.leading)
        + 8 * u32::from(flags.trailing)
        + 16 * u32::from(flags.consecutive)
}

// The table as data: an entry for each cell (cell_of), in which bit 8 * p + n is the rule's answer for neighbours with the codes p
// and n (code_of). A `match`, and not an array, is compiled to a table that is read where it lies.
fn rule_word(cell: u32) -> u64
    requires { cell < 32 }
    ensures { IsEntry cell result }
{
    match cell {
        0 => 0x0000000000000000, // none, first
        1 => 0x0000000000000000, // none, later
        2 => 0xCCCC0000CCCC0000, // I, first
        3 => 0xCCCCCCCCCCCCCCCC, // I, later
        4 => 0x0000000000000F0F, // L, first
        5 => 0x0000000000000000, // L, later
        6 => 0xCCCC0000CCCCFFFF, // IL, first
        7 => 0xCCCCCCCCCCCCCCCC, // IL, later
        8 => 0x0000000003030303, // T, first
        9 => 0x0303030303030303, // T, later
        10 => 0x0F0F03030F0F0303, // IT, first
        11 => 0x0F0F0F0F0F0F0F0F, // IT, later
        12 => 0x0000000003030F0F, // LT, first
        13 => 0x0303030303030303, // LT, later
        14 => 0x000000000F0F0F0F, // ILT, first
        15 => 0x0F0F0F0F0F0F0F0F, // ILT, later
        16 => 0x0000000000000000, // C, first
        17 => 0x0000000000000000, // C, later
        18 => 0xCCCC0000CCCC0000, // IC, first
        19 => 0xCCCCCCCCCCCCCCCC, // IC, later
        20 => 0x0000FFFF0000FFFF, // LC, first
        21 => 0x0000000000000000, // LC, later
        22 => 0xCCCCFFFFCCCCFFFF, // ILC, first
        23 => 0xDDDDDDDDDDDDDDDD, // ILC, later
        24 => 0x3333333333333333, // TC, first
        25 => 0x3333333333333333, // TC, later
        26 => 0x3333FF333333FF33, // ITC, first
        27 => 0xFFFFFFFFFFFFFFFF, // ITC, later
        28 => 0x3333FFFF3333FFFF, // LTC, first
        29 => 0x3333333333333333, // LTC, later
        30 => 0xFFFFFFFFFFFFFFFF, // ILTC, first
        _ => 0xFFFFFFFFFFFFFFFF, // ILTC, later
    }
}

// Whether a separator between these neighbours may be passed.
pub(crate) fn rule(flags: Flags, first: bool, previous: Neighbour, next: Neighbour) -> bool
    ensures { result ≡ rule_of flags first previous next }
{
    let cell = cell_of(flags, first);
    let position = 8 * code_of(previous) + code_of(next);
    let word = rule_word(cell);
    bit_at(word, position)
}

// The rule of a reader that has counted. It never looks at the byte before, so the low bits of the entry say all.
pub(crate) fn later_rule(flags: Flags) -> Later
    ensures { IsLater flags result }
{
    let cell = cell_of(flags, false);
    Later(rule_word(cell))
}

impl Later {
    // What it says of the neighbour after the separator.
    pub(crate) fn passes_before(self, next: Neighbour) -> bool
        ensures { result ≡ bit self.0 (code_of next) }
    {
        bit_at(self.0, code_of(next))
    }
}

// Which neighbours the rule of a cell looks at.
pub(crate) fn names_of(flags: Flags, first: bool) -> Wanted
    ensures { result ≡ names_of flags first }
{
    let cell = cell_of(flags, first);
    Wanted {
        previous: bit_at(NAMES_PREVIOUS, cell),
        next: bit_at(NAMES_NEXT, cell),
    }
}
