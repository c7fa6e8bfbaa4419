// What is printed of a message, of a refusal and at the end.
use crate::hint::Hint;
use crate::names::FieldName;
use crate::shown::{Text, part};
use crate::words::{OrderName, TheByte, TheField, TypeName};
use crate::{dump, hint, refusals, words};
use meaning::{Entry, Fields, Header, Length, Place, Refusal};
use std::io::Write;
use std::{fmt, io};

// What was accepted of the stream: so many messages, in so many bytes.
#[derive(Clone, Copy, Default)]
pub(crate) struct Passed {
    messages: u64,
    bytes: u64,
}

impl Passed {
    // One more message, of so many bytes.
    pub(crate) fn add(&mut self, length: usize) {
        self.messages = self.messages.wrapping_add(1);
        self.bytes = self.bytes.wrapping_add(length as u64);
    }
}

impl fmt::Display for Passed {
    fn fmt<W: fmt::Write>(&self, f: &mut fmt::Formatter<W>) -> fmt::Result {
        let messages = words::messages(self.messages);
        let bytes = words::bytes(self.bytes);
        write!(f, "{messages} in {bytes}")
    }
}

// Number and place of the next message, which open its paragraph.
pub(crate) fn head(out: &mut impl Write, passed: Passed) -> io::Result<()> {
    let number = passed.messages.wrapping_add(1);
    let first = passed.bytes;
    write!(out, "message {number} at byte {first}: ")
}

// What a message is, how long, and its serial; flags and version only where they are not what most messages have.
fn form(out: &mut impl Write, header: Header) -> io::Result<()> {
    let kind = TypeName(header.kind);
    let order = OrderName(header.order);
    let Length(length) = header.length;
    let size = words::bytes(length as u64);
    let serial = header.serial;
    write!(out, "{kind}, {order}, {size}, serial {serial}")?;
    if header.flags != 0 {
        write!(out, ", flags {}", header.flags)?;
    }
    if header.version != 1 {
        write!(out, ", version {}", header.version)?;
    }
    writeln!(out)
}

// A header field with its name; nothing where it is absent.
fn field(out: &mut impl Write, message: &[u8], name: FieldName, entry: Entry) -> io::Result<()> {
    match entry {
        Entry::Absent => Ok(()),
        Entry::Number(n) => writeln!(out, "    {name:<14}{n}"),
        Entry::Text(Place(first), Length(length)) => {
            let text = Text(part(message, first, length));
            writeln!(out, "    {name:<14}{text}")
        }
    }
}

fn fields(out: &mut impl Write, message: &[u8], all: Fields) -> io::Result<()> {
    let entries = [
        (FieldName::Path, all.object),
        (FieldName::Interface, all.interface),
        (FieldName::Member, all.member),
        (FieldName::ErrorName, all.error_name),
        (FieldName::ReplySerial, all.response_serial),
        (FieldName::Destination, all.destination),
        (FieldName::Sender, all.sender),
        (FieldName::Signature, all.signature),
        (FieldName::UnixFds, all.num_fds),
    ];
    for (name, entry) in entries {
        field(out, message, name, entry)?;
    }
    Ok(())
}

// A message by its header, without number and place; `message` begins with it.
pub(crate) fn whole(out: &mut impl Write, message: &[u8], header: Header) -> io::Result<()> {
    form(out, header)?;
    fields(out, message, header.fields)?;
    let Length(size) = header.body_length;
    let Place(place) = header.body;
    if size == 0 {
        return writeln!(out, "    body          empty");
    }
    let size = words::bytes(size as u64);
    writeln!(
        out,
        "    body          {size} from byte {place} of the message on"
    )
}

// Where a refusal stands. Faults before the body's values all have the position 0.
fn position(out: &mut impl Write, place: usize, first: u64) -> io::Result<()> {
    let byte = first.wrapping_add(place as u64);
    write!(
        out,
        "    position {place} in the message, byte {byte} of the stream"
    )?;
    if place == 0 {
        write!(out, " (every fault before the body has position 0)")?;
    }
    writeln!(out)
}

// Where to look for a fault that has the position 0, in words that set it apart from the lines above.
fn hinted(out: &mut impl Write, first: u64, hint: Hint) -> io::Result<()> {
    write!(out, "    hint, not part of the proved answer: ")?;
    match hint {
        Hint::Byte(byte, what) => {
            let place = TheByte { byte, first };
            writeln!(out, "look at {place}, {what}")
        }
        Hint::Field { code, begin, byte } => {
            // the fault of a value has the place where the value begins, and may lie further on.
            let place = TheByte { byte, first };
            let field = TheField(code);
            write!(out, "look from {place} on, ")?;
            if byte == begin {
                writeln!(out, "where {field} begins")
            } else {
                writeln!(out, "in {field} that begins at byte {begin} of the message")
            }
        }
        Hint::Twice(name, byte) => {
            let place = TheByte { byte, first };
            let field = TheField(name.code());
            writeln!(out, "look at {place}, where {field} begins a second time")
        }
        Hint::Absent(name, kind) => {
            let field = TheField(name.code());
            let kind = TypeName(kind);
            writeln!(
                out,
                "{field} is absent, which a message of the type {kind} needs"
            )
        }
    }
}

// A refusal without the message's number; `message` is what is there of the message.
pub(crate) fn refused(
    out: &mut impl Write,
    passed: Passed,
    message: &[u8],
    refusal: Refusal,
) -> io::Result<()> {
    let first = passed.bytes;
    let Place(place) = refusal.place;
    let number = meaning::number(refusal.fault);
    let words = refusals::words(refusal.fault);
    writeln!(out, "REFUSED")?;
    writeln!(out, "    refusal {number}, {words}")?;
    position(out, place, first)?;
    let found = hint::of(message, refusal);
    if let Some(hint) = found {
        hinted(out, first, hint)?;
    }
    let byte = found.and_then(Hint::byte).unwrap_or(place);
    dump::place(out, message, first, byte)
}

// A message of which `there` bytes are there, and the stream ends; its size is 16 while that is not stated.
pub(crate) fn cut(out: &mut impl Write, there: u64, size: usize) -> io::Result<()> {
    let bytes = words::bytes(there);
    let stated = if there < 16 {
        "that every message has at least"
    } else {
        "that its first 16 bytes state"
    };
    writeln!(out, "CUT OFF")?;
    writeln!(
        out,
        "    the stream ends after {bytes} of the {size} {stated}"
    )
}

// A message of which no more than `room` bytes can be held.
pub(crate) fn too_large(out: &mut impl Write, size: usize, room: usize) -> io::Result<()> {
    let size = words::bytes(size as u64);
    let room = words::bytes(room as u64);
    writeln!(out, "TOO LARGE FOR THIS PROGRAM")?;
    writeln!(
        out,
        "    its first 16 bytes state {size}, and this program holds messages of up to {room}"
    )
}

// The last line, which opens with what was accepted: the stream ends, `rest` bytes into a message.
pub(crate) fn ended(out: &mut impl Write, passed: Passed, rest: u64) -> io::Result<()> {
    if rest != 0 {
        let bytes = words::bytes(rest);
        return writeln!(
            out,
            "{passed}; the stream ENDS INSIDE A MESSAGE, {bytes} into it"
        );
    }
    let end = if passed.messages == 0 {
        "the stream is empty"
    } else {
        "the stream ends where the last one ends"
    };
    writeln!(out, "{passed}; {end}")
}

// The program stops, with `left` bytes of the stream behind what was accepted.
pub(crate) fn stopped(out: &mut impl Write, passed: Passed, left: u64) -> io::Result<()> {
    let place = passed.bytes;
    let rest = words::bytes(left);
    writeln!(
        out,
        "{passed}; STOPPED at byte {place}, as nothing vouches for where the next message begins: {rest} from there on not taken apart"
    )
}
