// One header field (unmarshal.rs): document 01, port order 5.
ghost use Rattle.std.specs.Prelude.{◌≡◌, ◌≤◌, ℕ, length, take};
ghost use Rattle.meaning.specs.Types.{Base, base, Raw};
ghost use Rattle.meaning.specs.ReadValue.{base_r, and_r, read, read_var};
ghost use Rattle.meaning.specs.Message.{exactly, wants};
ghost use Rattle.meaning.specs.Signature.{code as code_of};
ghost use Rattle.meaning.specs.ReadMessage.{type_r, field_r};
ghost use Rattle.meaning.specs.Header.{entry_as};
ghost use Rattle.header.specs.HeaderField.{OneIs, Known, Stands, Stood, known_to, content_to, field_to};

use basic::spelled;
use basic::spelled::Misspelt;
use meaning::{Entry, Fault, Length, Order, Part, Place, Refusal};
use util::integers;
use validate_raw::walk;
use validate_raw::walk::{Left, Spot};

// What the header keeps of a field whose code is known: the code, and the entry.
#[derive(Clone, Copy)]
pub struct Kept {
    pub code: usize,
    pub entry: Entry,
}

// A header field that was read: the place after it, and what the header keeps of it. Nothing is kept where the code is not known.
#[derive(Clone, Copy)]
pub struct FieldEntry {
    pub next: Place,
    pub kept: Option<Kept>,
}

// The signature of a header field at `off`, which is to spell one type: where it begins, and how long it is.
fn one_type(buf: &[u8], off: usize) -> Result<Part, Refusal>
    requires { off ≤ length buf.now }
    ensures { (o : Order) → OneIs result o buf.now off }
{
    match spelled::spelled_types(buf, off) {
        Ok((types, past)) => {
            if types != 1 {
                return Err(meaning::refuse(Fault::NoSignature, 0));
            }
            let first = off + 1;
            Ok(Part(Place(first), Length(past.0 - 1 - first)))
        }
        Err(Misspelt::Grammar(_)) => Err(meaning::refuse(Fault::NoSignature, 0)),
        Err(Misspelt::Text(refusal)) => Err(refusal),
    }
}

// The type that a known field asks for, by its code.
fn asked(code: u8) -> u8
    ensures { (k : Base) → wants code ≡ exactly k → result ≡ code_of k }
{
    match code {
        1 => b'o',
        5 => b'u',
        8 => b'g',
        9 => b'u',
        _ => b's',
    }
}

// What the header keeps of a known field's value, which stands from `at` to `next`.
fn entry_of(order: Order, k: u8, buf: &[u8], at: usize, next: usize) -> Entry
    requires { Stood order k buf.now at next }
    ensures { (c : ℕ) (b : Base) (v : Raw b) → Stands order k buf.now at next c b v → result ≡ entry_as next (base b, v) }
{
    match k {
        b'u' => Entry::Number(integers::load32(order, buf, at) as u32),
        b'g' => {
            let first = at + 1;
            Entry::Text(Place(first), Length(next - 1 - first))
        }
        _ => {
            let first = at + 4;
            Entry::Text(Place(first), Length(next - 1 - first))
        }
    }
}

// The value of a known field, by the code of its type.
fn known(order: Order, code: u8, k: u8, buf: &[u8], off: usize) -> Result<FieldEntry, Refusal>
    requires known { Known code k }
    requires inside { off ≤ length buf.now }
    ensures { (b : Base) → wants code ≡ exactly b → result ≡ known_to code b (base_r order b buf.now off) }
{
    let Place(at) = util::padded(buf, off, types::align(k))?;
    let Place(next) = basic::bare(order, k, buf, at)?;
    let kept = Kept {
        code: code as usize,
        entry: entry_of(order, k, buf, at, next),
    };
    Ok(FieldEntry {
        next: Place(next),
        kept: Some(kept),
    })
}

// A field after its code: its signature, whether the code allows it, and its value. An unknown field's variant is the first of 16.
fn content(order: Order, code: u8, buf: &[u8], off: usize) -> Result<FieldEntry, Refusal>
    requires { off ≤ length buf.now }
    ensures { result ≡ content_to code (and_r (type_r order code) (λ t. read order (read_var order 15) t) buf.now off) }
{
    let Part(Place(first), Length(long)) = one_type(buf, off)?;
    let stop = first + long;
    match code {
        0 => Err(meaning::refuse(Fault::InvalidHeaderField, 0)),
        1..=9 => {
            let k = asked(code);
            if buf[first] != k {
                return Err(meaning::refuse(Fault::WrongSignature, 0));
            }
            known(order, code, k, buf, stop + 1)
        }
        _ => {
            let at = Spot {
                sig: Place(0),
                buf: Place(stop + 1),
            };
            let past = walk::value(order, &buf[first..stop], buf, at, Left { levels: 15 })?;
            Ok(FieldEntry {
                next: past.buf,
                kept: None,
            })
        }
    }
}

// The header field at `off`, of a table that ends at `end`. It is handed all of the message, and not the table alone, so that an edit can try a field
// that goes on behind its table.
pub fn unmarshal_header_field(
    order: Order,
    buf: &[u8],
    end: usize,
    off: usize,
) -> Result<FieldEntry, Refusal>
    requires { (off ≤ end) × (end ≤ length buf.now) }
    ensures { result ≡ field_to (field_r order (take end buf.now) off) }
{
    let table = &buf[..end];
    let Place(at) = util::padded(table, off, types::align(b'('))?;
    if end <= at {
        return Err(meaning::refuse(Fault::NotEnoughBytes, 0));
    }
    content(order, table[at], table, at + 1)
}
