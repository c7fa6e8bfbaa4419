// Words for what stands in a message.
use crate::names::FieldName;
use meaning::{MessageType, Order};
use std::fmt;

// A number of things, whose name has an s unless there is one.
#[derive(Clone, Copy)]
pub(crate) struct Count(u64, &'static str);

pub(crate) fn bytes(n: u64) -> Count {
    Count(n, "byte")
}

pub(crate) fn messages(n: u64) -> Count {
    Count(n, "message")
}

impl fmt::Display for Count {
    fn fmt<W: fmt::Write>(&self, f: &mut fmt::Formatter<W>) -> fmt::Result {
        let Count(n, name) = *self;
        let plural = if n == 1 { "" } else { "s" };
        write!(f, "{n} {name}{plural}")
    }
}

#[derive(Clone, Copy)]
pub(crate) struct TypeName(pub(crate) MessageType);

impl fmt::Display for TypeName {
    fn fmt<W: fmt::Write>(&self, f: &mut fmt::Formatter<W>) -> fmt::Result {
        f.write_str(match self.0 {
            MessageType::Call => "method call",
            MessageType::Reply => "method return",
            MessageType::Error => "error",
            MessageType::Signal => "signal",
        })
    }
}

#[derive(Clone, Copy)]
pub(crate) struct OrderName(pub(crate) Order);

impl fmt::Display for OrderName {
    fn fmt<W: fmt::Write>(&self, f: &mut fmt::Formatter<W>) -> fmt::Result {
        f.write_str(match self.0 {
            Order::Little => "little-endian",
            Order::Big => "big-endian",
        })
    }
}

// A header field by its code: a known one by its name too.
#[derive(Clone, Copy)]
pub(crate) struct TheField(pub(crate) u8);

impl fmt::Display for TheField {
    fn fmt<W: fmt::Write>(&self, f: &mut fmt::Formatter<W>) -> fmt::Result {
        let code = self.0;
        match FieldName::try_from(code) {
            Ok(name) => write!(f, "the header field {name} (code {code})"),
            Err(_) => write!(f, "the header field with the code {code}"),
        }
    }
}

// A byte of a message that begins at the byte `first` of the stream.
#[derive(Clone, Copy)]
pub(crate) struct TheByte {
    pub(crate) byte: usize,
    pub(crate) first: u64,
}

impl fmt::Display for TheByte {
    fn fmt<W: fmt::Write>(&self, f: &mut fmt::Formatter<W>) -> fmt::Result {
        let byte = self.byte;
        let place = self.first.wrapping_add(byte as u64);
        write!(f, "byte {byte} of the message (byte {place} of the stream)")
    }
}
