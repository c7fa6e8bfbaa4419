// The header fields that document 01 knows.
use std::fmt;

// In the order of their codes, which begin with 1.
#[derive(Clone, Copy)]
pub(crate) enum FieldName {
    Path = 1,
    Interface,
    Member,
    ErrorName,
    ReplySerial,
    Destination,
    Sender,
    Signature,
    UnixFds,
}

impl FieldName {
    pub(crate) const ALL: [FieldName; 9] = [
        FieldName::Path,
        FieldName::Interface,
        FieldName::Member,
        FieldName::ErrorName,
        FieldName::ReplySerial,
        FieldName::Destination,
        FieldName::Sender,
        FieldName::Signature,
        FieldName::UnixFds,
    ];

    pub(crate) fn code(self) -> u8 {
        self as u8
    }
}

// The error is the code that names no known field.
impl TryFrom<u8> for FieldName {
    type Error = u8;

    fn try_from(code: u8) -> Result<FieldName, u8> {
        match code {
            1 => Ok(FieldName::Path),
            2 => Ok(FieldName::Interface),
            3 => Ok(FieldName::Member),
            4 => Ok(FieldName::ErrorName),
            5 => Ok(FieldName::ReplySerial),
            6 => Ok(FieldName::Destination),
            7 => Ok(FieldName::Sender),
            8 => Ok(FieldName::Signature),
            9 => Ok(FieldName::UnixFds),
            _ => Err(code),
        }
    }
}

// `{:<14}` puts what follows the names into one column.
impl fmt::Display for FieldName {
    fn fmt<W: fmt::Write>(&self, f: &mut fmt::Formatter<W>) -> fmt::Result {
        f.pad(match self {
            FieldName::Path => "path",
            FieldName::Interface => "interface",
            FieldName::Member => "member",
            FieldName::ErrorName => "error name",
            FieldName::ReplySerial => "reply serial",
            FieldName::Destination => "destination",
            FieldName::Sender => "sender",
            FieldName::Signature => "signature",
            FieldName::UnixFds => "unix fds",
        })
    }
}
