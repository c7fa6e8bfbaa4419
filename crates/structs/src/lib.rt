// The structs that C and Rust get, made of the answers of the proved crates. include/millettie.h has the same structs.
#![tactic(auto)]

ghost use Rattle.std.specs.Prelude.{◌≡◌};
ghost use Rattle.structs.specs.Answers.{order_of, accepted as accepted_of, refused as refused_of, answer_of, count_of, Past, written_of, entry_of, fields_of, header_of, read_of, part_of};

use meaning::{Entry, Fields, Header, Length, Order, Place, Refusal};

// Number 0: accepted, and length counts. Any other: document 01's number of the refusal, and position counts.
#[repr(C)]
#[derive(Clone, Copy, Default)]
pub struct MtAnswer {
    pub number: u64,
    pub position: u64,
    pub length: u64,
}

// Kind 0: absent. 1: a number, in value. 2: a text, its place in value.
#[repr(C)]
#[derive(Clone, Copy, Default)]
pub struct MtEntry {
    pub kind: u64,
    pub value: u64,
    pub length: u64,
}

// In the order of the fields' codes, as nine entries in a row.
#[repr(C)]
#[derive(Clone, Copy, Default)]
pub struct MtFields {
    pub object: MtEntry,
    pub interface: MtEntry,
    pub member: MtEntry,
    pub error_name: MtEntry,
    pub response_serial: MtEntry,
    pub destination: MtEntry,
    pub sender: MtEntry,
    pub signature: MtEntry,
    pub num_fds: MtEntry,
}

#[repr(C)]
#[derive(Clone, Copy, Default)]
pub struct MtHeader {
    pub answer: MtAnswer,
    pub big: bool,
    pub kind: u8,
    pub flags: u8,
    pub version: u8,
    pub serial: u32,
    pub body_place: u64,
    pub body_length: u64,
    pub fields: MtFields,
}

#[repr(C)]
#[derive(Clone, Copy)]
pub struct MtPart {
    pub in_message: bool,
    pub place: u64,
    pub length: u64,
}

// What C passes and gets goes through functions by these names: OneAnswer and the must-fail edits speak of each. What they are made of is `From`.
pub fn order(big: bool) -> Order
    ensures { result ≡ order_of big }
{
    if big { Order::Big } else { Order::Little }
}

fn accepted(length: usize) -> MtAnswer
    ensures { result ≡ accepted_of length }
{
    MtAnswer {
        number: 0,
        position: 0,
        length: length as u64,
    }
}

pub fn refused(refusal: Refusal) -> MtAnswer
    ensures { result ≡ refused_of refusal }
{
    MtAnswer {
        number: u64::from(meaning::number(refusal.fault)),
        position: refusal.place.0 as u64,
        length: 0,
    }
}

pub fn of_counted(counted: Result<usize, Refusal>) -> MtAnswer
    ensures { result ≡ count_of counted }
{
    match counted {
        Ok(count) => accepted(count),
        Err(refusal) => refused(refusal),
    }
}

pub fn of_checked(checked: Result<Length, Refusal>) -> MtAnswer
    ensures { result ≡ answer_of checked }
{
    of_counted(checked.map(|length| length.0))
}

// A write's length: from the place where it began.
pub fn of_written(from: usize, written: Result<Place, Refusal>) -> MtAnswer
    requires { Past from written }
    ensures { result ≡ written_of from written }
{
    of_counted(written.map(|place| place.0 - from))
}

impl From<Entry> for MtEntry {
    ghost from_gives = { λ entry result. result ≡ entry_of entry };

    fn from(entry: Entry) -> MtEntry {
        match entry {
            Entry::Absent => MtEntry::default(),
            Entry::Number(number) => MtEntry {
                kind: 1,
                value: u64::from(number),
                length: 0,
            },
            Entry::Text(place, length) => MtEntry {
                kind: 2,
                value: place.0 as u64,
                length: length.0 as u64,
            },
        }
    }
}

fn of_fields(fields: Fields) -> MtFields
    ensures { result ≡ fields_of fields }
{
    MtFields {
        object: fields.object.into(),
        interface: fields.interface.into(),
        member: fields.member.into(),
        error_name: fields.error_name.into(),
        response_serial: fields.response_serial.into(),
        destination: fields.destination.into(),
        sender: fields.sender.into(),
        signature: fields.signature.into(),
        num_fds: fields.num_fds.into(),
    }
}

impl From<Header> for MtHeader {
    ghost from_gives = { λ header result. result ≡ header_of header };

    fn from(header: Header) -> MtHeader {
        MtHeader {
            answer: accepted(header.length.0),
            big: header.order == Order::Big,
            kind: meaning::kind_code(header.kind),
            flags: header.flags,
            version: header.version,
            serial: header.serial,
            body_place: header.body.0 as u64,
            body_length: header.body_length.0 as u64,
            fields: of_fields(header.fields),
        }
    }
}

fn no_header(refusal: Refusal) -> MtHeader
    ensures { result ≡ read_of (Err refusal) }
{
    MtHeader {
        answer: refused(refusal),
        ..MtHeader::default()
    }
}

// What is handed out of a message: its header, or its refusal and nothing beside it.
pub fn of_read(read: Result<Header, Refusal>) -> MtHeader
    ensures { result ≡ read_of read }
{
    match read {
        Ok(header) => header.into(),
        Err(refusal) => no_header(refusal),
    }
}

// The part that an entry says of the message, or all bytes of a fallback of that length.
pub fn of_found(entry: Entry, fallback: usize) -> MtPart
    ensures { result ≡ part_of entry fallback }
{
    match entry {
        Entry::Text(place, length) => MtPart {
            in_message: true,
            place: place.0 as u64,
            length: length.0 as u64,
        },
        Entry::Number(_) | Entry::Absent => MtPart {
            in_message: false,
            place: 0,
            length: fallback as u64,
        },
    }
}
