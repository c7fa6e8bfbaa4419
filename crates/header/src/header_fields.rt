// The table of header fields (unmarshal.rs): document 01, port order 5.
ghost use Rattle.std.specs.Prelude.{◌≡◌, ◌&&◌, ◌-◌, ◌≤◌, length, take};
ghost use Rattle.header.specs.HeaderFields.{first_of, present, once, fields_r, by_code, table_to};

use crate::header_field;
use meaning::{Entry, Fault, Fields, MessageType, Order, Refusal};

// Of one code: how often it was seen, and the entry of the first field that has it.
#[derive(Clone, Copy)]
struct Seen {
    count: usize,
    entry: Entry,
}

// Whether the fields stand there that this type of message asks for, by how often each code was seen.
fn required(kind: MessageType, seen: &[Seen; 10]) -> bool
    ensures { result ≡ present kind seen.now }
{
    match kind {
        MessageType::Call => 1 <= seen[1].count && 1 <= seen[3].count,
        MessageType::Reply => 1 <= seen[5].count,
        MessageType::Error => 1 <= seen[4].count && 1 <= seen[5].count,
        MessageType::Signal => 1 <= seen[1].count && 1 <= seen[2].count && 1 <= seen[3].count,
    }
}

// Whether no known code was seen twice. No `.all(..)`: a wrong number in its closure fails a search, which shows `tools/refused` nothing.
fn unrepeated(seen: &[Seen; 10]) -> bool
    ensures { result ≡ once seen.now }
{
    for code in 1..10 {
        if 1 < seen[code].count {
            return false;
        }
    }
    true
}

fn validate_header_fields(kind: MessageType, seen: &[Seen; 10]) -> bool
    ensures { result ≡ (present kind seen.now && once seen.now) }
{
    required(kind, seen) && unrepeated(seen)
}

// Of two entries for one code the first is kept.
fn first_of(count: usize, old: Entry, new: Entry) -> Entry
    ensures { result ≡ first_of count old new }
{
    if count == 0 { new } else { old }
}

// The entries of the known codes, each under its name.
fn by_code(seen: &[Seen; 10]) -> Fields
    ensures { result ≡ by_code seen.now }
{
    Fields {
        object: seen[1].entry,
        interface: seen[2].entry,
        member: seen[3].entry,
        error_name: seen[4].entry,
        response_serial: seen[5].entry,
        destination: seen[6].entry,
        sender: seen[7].entry,
        signature: seen[8].entry,
        num_fds: seen[9].entry,
    }
}

// The header fields from `first` to `end`: the nine entries. Each code is its own place in `seen`.
pub fn unmarshal_header_fields(
    order: Order,
    kind: MessageType,
    buf: &[u8],
    end: usize,
    first: usize,
) -> Result<Fields, Refusal>
    requires { (first ≤ end) × (end ≤ length buf.now) }
    ensures { result ≡ table_to order first (fields_r order kind (end - first) (take end buf.now) first) }
{
    let none = Seen {
        count: 0,
        entry: Entry::Absent,
    };
    let mut seen = [none; 10];
    let mut at = first;
    while at < end {
        let field = header_field::unmarshal_header_field(order, buf, end, at)?;
        if let Some(kept) = field.kept {
            let old = seen[kept.code];
            seen[kept.code] = Seen {
                count: old.count + 1,
                entry: first_of(old.count, old.entry, kept.entry),
            };
        }
        at = field.next.0;
    }
    if !validate_header_fields(kind, &seen) {
        return Err(meaning::refuse(Fault::InvalidHeaderFields, 0));
    }
    Ok(by_code(&seen))
}
