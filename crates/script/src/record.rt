// The records of a call script, from their bytes.
ghost use Rattle.std.specs.Prelude.{◌≡◌, ◌+◌, ◌≤◌, ◌<◌, ◌^◌, length};
ghost use Rattle.script.specs.Record.{kind_of, body_length, size_behind, little_endian, number_at, whole_record, record_behind};

use crate::refusal::Refusal;

#[derive(Clone, Copy, Debug, PartialEq, Eq)]
pub enum Kind {
    Text,
    Open,
    Peek,
    Take,
    Read,
    ZeroSkip,
    Block,
}

// A call of a reader, with what it has beside the reader.
#[derive(Clone, Copy, Debug, PartialEq, Eq)]
pub enum Call {
    Peek,
    Take,
    Read(u8),
    ZeroSkip,
    Block(u32),
}

#[derive(Clone, Copy, Debug, PartialEq, Eq)]
pub enum Record {
    Text(u8),
    // The word's halves.
    Open(u64, u64),
    // The reader byte, which may name no reader, and the call.
    Call(u8, Call),
}

impl TryFrom<u8> for Kind {
    type Error = Refusal;

    ghost try_from_gives = { λ byte kind. kind ≡ kind_of byte };

    #[tactic(auto, unfolding(crate::specs::Record::kind_of))]
    fn try_from(byte: u8) -> Result<Kind, Refusal> {
        match byte {
            0 => Ok(Kind::Text),
            1 => Ok(Kind::Open),
            2 => Ok(Kind::Peek),
            3 => Ok(Kind::Take),
            4 => Ok(Kind::Read),
            5 => Ok(Kind::ZeroSkip),
            6 => Ok(Kind::Block),
            _ => Err(Refusal::Unknown),
        }
    }
}

impl Kind {
    // How many bytes follow the kind.
    pub fn body_length(self) -> usize
        ensures { result ≡ body_length self }
    {
        match self {
            Kind::Text => 1,
            Kind::Open => 16,
            Kind::Peek => 1,
            Kind::Take => 1,
            Kind::Read => 2,
            Kind::ZeroSkip => 1,
            Kind::Block => 5,
        }
    }
}

// How many bytes belong to a record behind its first one: none where that is no kind.
pub fn size_behind(kind: Result<Kind, Refusal>) -> usize
    ensures { result ≡ size_behind kind }
{
    kind.map_or(0, Kind::body_length)
}

// One byte of a body.
fn byte_at(body: &[u8], place: usize) -> u8
    requires { place < length body.now }
    ensures { result ≡ number_at body.now place 1 }
{
    body[place]
}

// The number in up to eight bytes, lowest first: read from the highest down. As `from_le_bytes` of four and of eight bytes, each by its
// index, a script took a twenty-fifth longer.
fn little_endian(bytes: &[u8]) -> u64
    requires { length bytes.now ≤ 8 }
    ensures value { result ≡ little_endian bytes.now }
    ensures fits { result < 256 ^ length bytes.now }
{
    let mut number = 0;
    for b in bytes.iter().rev() {
        number = number * 256 + u64::from(*b);
    }
    number
}

fn count_at(body: &[u8]) -> u32
    requires { 5 ≤ length body.now }
    ensures { result ≡ number_at body.now 1 4 }
{
    little_endian(&body[1..5]) as u32
}

// A record whose body is whole.
fn whole_record(kind: Kind, body: &[u8]) -> Record
    requires { body_length kind ≤ length body.now }
    ensures { result ≡ whole_record kind body.now }
{
    match kind {
        Kind::Text => Record::Text(byte_at(body, 0)),
        Kind::Open => Record::Open(little_endian(&body[0..8]), little_endian(&body[8..16])),
        Kind::Peek => Record::Call(byte_at(body, 0), Call::Peek),
        Kind::Take => Record::Call(byte_at(body, 0), Call::Take),
        Kind::Read => Record::Call(byte_at(body, 0), Call::Read(byte_at(body, 1))),
        Kind::ZeroSkip => Record::Call(byte_at(body, 0), Call::ZeroSkip),
        Kind::Block => Record::Call(byte_at(body, 0), Call::Block(count_at(body))),
    }
}

// The record behind a kind, from all that follows of the input: the kind is tested first, then the length.
pub(crate) fn record_behind(kind: Result<Kind, Refusal>, body: &[u8]) -> Result<Record, Refusal>
    ensures { result ≡ record_behind kind body.now }
{
    let known = kind?;
    if body.len() < known.body_length() {
        return Err(Refusal::CutShort);
    }
    Ok(whole_record(known, body))
}
