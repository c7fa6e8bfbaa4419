// Where to look for the fault of a header. Every fault before the body has the position 0, so the table of header fields is walked once more,
// by the library's own reader of a field. The walk is proved to be safe and to end, and no more: a hint is not part of the answer.
ghost use Rattle.std.specs.Prelude.{◌-◌, ◌<◌, ◌≤◌, length, IfOk};
ghost use Rattle.std.specs.Iterator.{at_most};

use crate::names::FieldName;
use header::{fixed_header, header_field};
use meaning::{Fault, MessageType, Order, Place, Refusal};
use std::fmt;
use util::integers;

#[derive(Clone, Copy)]
pub(crate) enum Hint {
    // A byte, and what it is.
    Byte(usize, Oddity),
    // A header field by its code, where it begins, and the byte in it to look at.
    Field { code: u8, begin: usize, byte: usize },
    // A known header field, and where the second one begins.
    Twice(FieldName, usize),
    // A header field, and the type of message that needs it.
    Absent(FieldName, MessageType),
}

impl Hint {
    // The byte to show, if the hint names one.
    pub(crate) fn byte(self) -> Option<usize> {
        match self {
            Hint::Byte(byte, _) => Some(byte),
            Hint::Field { byte, .. } => Some(byte),
            Hint::Twice(_, byte) => Some(byte),
            Hint::Absent(_, _) => None,
        }
    }
}

// What a hint has to say of one byte.
#[derive(Clone, Copy)]
pub(crate) enum Oddity {
    ByteOrder,
    MessageType,
    FieldPadding,
    BodyPadding,
    TableEnd,
}

impl fmt::Display for Oddity {
    fn fmt<W: fmt::Write>(&self, f: &mut fmt::Formatter<W>) -> fmt::Result {
        f.write_str(match self {
            Oddity::ByteOrder => "which states the byte order",
            Oddity::MessageType => "which states the message's type",
            Oddity::FieldPadding => "which is not zero in the padding before a header field",
            Oddity::BodyPadding =>
                "which is not zero in the padding between the header fields and the body",
            Oddity::TableEnd =>
                "where the table of header fields goes on but ends before another field can begin",
        })
    }
}

// A header field that was read: its code as the library's reader says it, 0 for every unknown one, and the place behind it.
#[derive(Clone, Copy)]
struct Known {
    code: usize,
    next: usize,
}

// The field at `at`, before its padding, of a table that ends at `end`; or where it is refused. That it goes on from `at` and stays in its table
// is tested here, so that no walk has to prove it.
fn field_at(order: Order, message: &[u8], end: usize, at: usize) -> Result<Known, usize>
    requires { (at ≤ end) × (end ≤ length message.now) }
    ensures { IfOk result (λ known. (at < known.next) × (known.next ≤ end)) }
{
    match header_field::unmarshal_header_field(order, message, end, at) {
        Ok(field) => {
            let Place(next) = field.next;
            if at < next && next <= end {
                Ok(Known {
                    code: match field.kept {
                        Some(kept) => kept.code,
                        None => 0,
                    },
                    next,
                })
            } else {
                Err(0)
            }
        }
        Err(refusal) => {
            let Place(fault) = refusal.place;
            Err(fault)
        }
    }
}

// The first header field begins here.
const TABLE: usize = 16;

// A table of header fields that is there, up to `end`.
#[derive(Clone, Copy)]
struct Table<'a> {
    order: Order,
    message: &'a [u8],
    end: usize,
    ghost behind_head: { 16 ≤ end },
    ghost there: { end ≤ length message.now },
}

// The fields of a table from `at` on, the last of which may be refused.
#[derive(Drop)]
struct Walk<'a> {
    table: Table<'a>,
    at: usize,
    ghost inside: { at ≤ table.end },
}

// Where a field stands, before its padding, and its code; or where it is refused.
#[derive(Clone, Copy)]
struct Field {
    at: usize,
    code: Result<usize, usize>,
}

impl Iterator for Walk<'_> {
    type Item = Field;

    ghost remaining = { λ walk. at_most (walk.table.end - walk.at) };

    fn next(&mut self) -> Option<Field> {
        let Table {
            order,
            message,
            end,
        } = self.table;
        let at = self.at;
        if at == end {
            return None;
        }
        let (code, next) = match field_at(order, message, end, at) {
            Ok(known) => (Ok(known.code), known.next),
            Err(fault) => (Err(fault), end),
        };
        self.at = next;
        Some(Field { at, code })
    }
}

impl<'a> Table<'a> {
    // The table of a message, if all of it is there.
    fn of(message: &'a [u8]) -> Option<Table<'a>> {
        if message.len() < TABLE {
            return None;
        }
        let order = fixed_header::byteorder(message[0]);
        let size = integers::load32(order, message, 12) as usize;
        if message.len() - TABLE < size {
            return None;
        }
        Some(Table {
            order,
            message,
            end: TABLE + size,
        })
    }

    fn fields(self) -> Walk<'a> {
        Walk {
            table: self,
            at: TABLE,
        }
    }

    // Where a field of that name stands after `before` others of that name.
    fn nth(self, name: FieldName, before: usize) -> Option<usize> {
        let code = name.code() as usize;
        self.fields()
            .filter(|field| field.code == Ok(code))
            .nth(before)
            .map(|field| field.at)
    }

    // The type of message that is stated.
    fn kind(self) -> MessageType {
        match self.message[1] {
            1 => MessageType::Call,
            2 => MessageType::Reply,
            3 => MessageType::Error,
            _ => MessageType::Signal,
        }
    }

    // A field that the type of message needs and the table has not.
    fn absent(self) -> Option<Hint> {
        let kind = self.kind();
        for name in needed(kind) {
            if self.nth(*name, 0).is_none() {
                return Some(Hint::Absent(*name, kind));
            }
        }
        None
    }

    // A known field that stands twice.
    fn twice(self) -> Option<Hint> {
        for name in FieldName::ALL {
            if let Some(at) = self.nth(name, 1) {
                return Some(Hint::Twice(name, begins(at)));
            }
        }
        None
    }

    // Every field is fine by itself: the fault is in the table as a whole, or in the padding behind it.
    fn behind_fields(self, fault: Fault) -> Option<Hint> {
        match fault {
            Fault::PaddingContainedData => Some(Hint::Byte(
                not_zero(self.message, self.end),
                Oddity::BodyPadding,
            )),
            // as in the check, a field that is absent comes before one that stands twice
            Fault::InvalidHeaderFields => self.absent().or_else(|| self.twice()),
            _ => None,
        }
    }

    // The field at `at`, before its padding, is refused at `fault`; many faults name no byte, and then it is the field's first. No field is left
    // where the table ends within the padding or right behind it.
    fn in_field(self, at: usize, fault: usize) -> Option<Hint> {
        let begin = begins(at);
        if self.end <= begin {
            return Some(Hint::Byte(at, Oddity::TableEnd));
        }
        Some(Hint::Field {
            code: *self.message.get(begin)?,
            begin,
            byte: fault.max(begin),
        })
    }

    // The padding at `fault` is not zero: that before the field at `at`, or some inside it.
    fn in_padding(self, at: usize, fault: usize) -> Option<Hint> {
        let byte = not_zero(self.message, fault);
        if byte < begins(at) {
            return Some(Hint::Byte(byte, Oddity::FieldPadding));
        }
        self.in_field(at, byte)
    }

    // Where a header is faulty whose table is there.
    fn hint(self, fault: Fault) -> Option<Hint> {
        for field in self.fields() {
            if let Err(place) = field.code {
                return match fault {
                    Fault::PaddingContainedData => self.in_padding(field.at, place),
                    _ => self.in_field(field.at, place),
                };
            }
        }
        self.behind_fields(fault)
    }
}

// The byte where a field begins, behind its padding to a multiple of 8.
fn begins(at: usize) -> usize {
    at.wrapping_add((8 - at % 8) % 8)
}

// The first byte from `from` on that is not zero.
fn not_zero(message: &[u8], from: usize) -> usize {
    message
        .iter()
        .enumerate()
        .skip(from)
        .find(|(_, b)| **b != 0)
        .map_or(from.max(message.len()), |(at, _)| at)
}

// The header fields that messages of a type need.
fn needed(kind: MessageType) -> &'static [FieldName] {
    match kind {
        MessageType::Call => &[FieldName::Path, FieldName::Member],
        MessageType::Reply => &[FieldName::ReplySerial],
        MessageType::Error => &[FieldName::ErrorName, FieldName::ReplySerial],
        MessageType::Signal => &[FieldName::Path, FieldName::Interface, FieldName::Member],
    }
}

// The hint for a refused message, as far as it is there. A fault in the body has its position, and wants none.
pub(crate) fn of(message: &[u8], refusal: Refusal) -> Option<Hint> {
    let Place(place) = refusal.place;
    if place != 0 {
        return None;
    }
    match refusal.fault {
        Fault::InvalidByteOrder => Some(Hint::Byte(0, Oddity::ByteOrder)),
        Fault::InvalidMessageType => Some(Hint::Byte(1, Oddity::MessageType)),
        fault => Table::of(message)?.hint(fault),
    }
}
