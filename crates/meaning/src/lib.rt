// The words that every crate of the library speaks: byte order, places, lengths, refusals and answers.
// What they mean stands in specs/.
#![tactic(auto)]

pub mod wire;

ghost use Rattle.std.specs.Prelude.{◌≡◌};
ghost use Rattle.meaning.specs.Faults.{number_of, refusal, moved};
ghost use Rattle.meaning.specs.Message.{kind_code};

#[derive(Clone, Copy, Debug, PartialEq, Eq)]
pub enum Order {
    Little,
    Big,
}

// A place in a buffer, counted from its first byte.
#[derive(Clone, Copy, Debug, PartialEq, Eq)]
pub struct Place(pub usize);

// A number of bytes.
#[derive(Clone, Copy, Debug, PartialEq, Eq)]
pub struct Length(pub usize);

// A part of a buffer: where it begins, and how long it is.
#[derive(Clone, Copy, Debug, PartialEq, Eq)]
pub struct Part(pub Place, pub Length);

// Why something is refused, under document 01's numbers.
#[derive(Clone, Copy, Debug, PartialEq, Eq)]
pub enum Fault {
    BadOffset = 1,
    NotEnoughBytes = 2,
    NotEnoughBytesForCollection = 3,
    PaddingContainedData = 4,
    InvalidBoolean = 5,
    InvalidUtf8 = 6,
    StringContainsNullByte = 7,
    MissingTerminator = 8,
    InvalidObjectPath = 9,
    InvalidSignature = 10,
    EmptySignature = 11,
    EmptyStruct = 12,
    SignatureTooLong = 13,
    NestingTooDeep = 14,
    WrongSignature = 15,
    VariantTooDeep = 16,
    InvalidByteOrder = 17,
    InvalidMessageType = 18,
    NoSignature = 19,
    InvalidHeaderField = 20,
    InvalidHeaderFields = 21,
    BodyLeft = 22,
    NoRoom = 23,
    BadAlignment = 24,
    TextTooLong = 25,
    BadArgument = 26,
}

// The error of every reader, check and writer here: their answers are `Result`s.
#[derive(Clone, Copy, Debug, PartialEq, Eq)]
pub struct Refusal {
    pub fault: Fault,
    pub place: Place,
}

// A value of fixed width with its kind. No double here is a NaN: a NaN stands by its bits.
#[derive(Clone, Copy)]
pub enum FixedValue {
    Byte(u8),
    Boolean(bool),
    Int16(i16),
    Uint16(u16),
    Int32(i32),
    Uint32(u32),
    Int64(i64),
    Uint64(u64),
    Double(f64),
    Nan(u64),
    UnixFd(u32),
}

// Under the numbers by which a message states its type.
#[derive(Clone, Copy, Debug, PartialEq, Eq)]
pub enum MessageType {
    Call = 1,
    Reply = 2,
    Error = 3,
    Signal = 4,
}

// A header field: not there, a number, or a text by its place in the message and its length.
#[derive(Clone, Copy, Debug, PartialEq, Eq)]
pub enum Entry {
    Absent,
    Number(u32),
    Text(Place, Length),
}

// The nine known header fields, in the order of their codes.
#[derive(Clone, Copy)]
pub struct Fields {
    pub object: Entry,
    pub interface: Entry,
    pub member: Entry,
    pub error_name: Entry,
    pub response_serial: Entry,
    pub destination: Entry,
    pub sender: Entry,
    pub signature: Entry,
    pub num_fds: Entry,
}

#[derive(Clone, Copy)]
pub struct Header {
    pub order: Order,
    pub kind: MessageType,
    pub flags: u8,
    pub version: u8,
    pub serial: u32,
    pub length: Length,
    pub body: Place,
    pub body_length: Length,
    pub fields: Fields,
}

// Document 01's number.
pub fn number(f: Fault) -> u8
    ensures { result ≡ number_of f }
{
    f as u8
}

// Every refusal of the library is made here, but for the two of `wire`.
pub fn refuse(fault: Fault, at: usize) -> Refusal
    ensures { result ≡ refusal fault at }
{
    Refusal {
        fault,
        place: Place(at),
    }
}

// The same refusal at another place.
pub fn moved(refusal: Refusal, to: usize) -> Refusal
    ensures { result ≡ moved to refusal }
{
    Refusal {
        fault: refusal.fault,
        place: Place(to),
    }
}

// The number that a message states for its type.
pub fn kind_code(kind: MessageType) -> u8
    ensures { result ≡ kind_code kind }
{
    kind as u8
}
