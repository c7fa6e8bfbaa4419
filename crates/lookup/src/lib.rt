// The text of a header field: document 01, port order 6.
#![tactic(auto)]

ghost use Rattle.std.specs.Prelude.{◌≡◌};
ghost use Rattle.meaning.specs.Header.{read_header, lookup as lookup_of};
ghost use Rattle.lookup.specs.Found.{text_at, found_in};

use meaning::{Entry, Fields, Length, Place};

// The entry of a field that holds a text, by its code; none for any other code.
fn text_entry(fields: Fields, code: u8) -> Entry
    ensures { result ≡ text_at code fields }
{
    match code {
        1 => fields.object,
        2 => fields.interface,
        3 => fields.member,
        4 => fields.error_name,
        6 => fields.destination,
        7 => fields.sender,
        8 => fields.signature,
        _ => Entry::Absent,
    }
}

// The entry of the header field with this code, if it holds a text: none in a refused message.
pub fn find(message: &[u8], code: u8) -> Entry
    ensures { result ≡ found_in (read_header message.now) code }
{
    match unmarshal::unmarshal_header(message) {
        Ok(header) => text_entry(header.fields, code),
        Err(_) => Entry::Absent,
    }
}

// The text of a header field inside the message, or the fallback where there is none.
pub fn lookup<'a>(message: &'a [u8], code: u8, fallback: &'a [u8]) -> &'a [u8]
    ensures { result.now ≡ lookup_of message.now code fallback.now }
{
    match find(message, code) {
        Entry::Text(Place(first), Length(long)) => &message[first..first + long],
        Entry::Number(_) | Entry::Absent => fallback,
    }
}
