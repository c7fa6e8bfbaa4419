// What C and Rust link: thin functions over the proved crates. include/millettie.h says what each is for.
#![tactic(auto)]

ghost use Rattle.std.specs.Prelude.{◌≡◌, length};
ghost use Rattle.meaning.specs.ReadValue.{check_signature, check_value};
ghost use Rattle.meaning.specs.ReadMessage.{check_message};
ghost use Rattle.meaning.specs.Header.{read_header};
ghost use Rattle.meaning.specs.FixedValue.{read_fixed};
ghost use Rattle.meaning.specs.Writers.{write_at, padding_bytes, integer_bytes, string_bytes, signature_bytes};
ghost use Rattle.lookup.specs.Found.{found_in};
ghost use Rattle.structs.specs.Answers.{order_of, answer_of, count_of, written_of, read_of, part_of};
ghost use Rattle.stream.specs.Next.{next_of};
ghost use Rattle.millettie.specs.Fixed.{fixed_of};
ghost use Rattle.millettie.specs.Framed.{length_in, framed_of, interface};

use meaning::{Order, Place};
use stream::Next;
use structs::{MtAnswer, MtHeader, MtPart};
use unmarshal::check_message;
use write::texts;

#[repr(C)]
#[derive(Clone, Copy)]
pub struct MtFixed {
    pub answer: MtAnswer,
    pub kind: u8,
    pub bits: u64,
}

// What stands next in a stream: state 0 whole, 1 cut off, 2 refused.
#[repr(C)]
#[derive(Clone, Copy)]
pub struct MtNext {
    pub state: u64,
    pub number: u64,
    pub position: u64,
    pub length: u64,
}

// The interface that include/millettie.h describes: MT_INTERFACE.
const INTERFACE: u32 = 2;

#[unsafe(no_mangle)]
pub extern "C" fn mt_interface() -> u32
    ensures { result ≡ interface }
{
    INTERFACE
}

#[unsafe(no_mangle)]
pub extern "C" fn mt_check_signature(sig: &[u8]) -> MtAnswer
    ensures { result ≡ count_of (check_signature sig.now) }
{
    structs::of_counted(signature::validate_signature(sig))
}

#[unsafe(no_mangle)]
pub extern "C" fn mt_check_value(big: bool, offset: usize, buf: &[u8], sig: &[u8]) -> MtAnswer
    ensures { result ≡ answer_of (check_value (order_of big) sig.now buf.now offset) }
{
    structs::of_checked(validate_raw::validate_marshalled(
        structs::order(big),
        Place(offset),
        buf,
        sig,
    ))
}

#[unsafe(no_mangle)]
pub extern "C" fn mt_check_message(buf: &[u8]) -> MtAnswer
    ensures { result ≡ answer_of (check_message buf.now) }
{
    structs::of_checked(check_message::check_message(buf))
}

#[unsafe(no_mangle)]
pub extern "C" fn mt_next_message(buf: &[u8]) -> MtNext
    ensures { result ≡ framed_of (next_of buf.now) }
{
    match stream::next_message(buf) {
        Next::Whole(header) => {
            let length = header.length;
            framed(0, length.0)
        }
        Next::Cut(wanted) => framed(1, wanted.0),
        Next::Refused(refusal) => {
            let answer = structs::refused(refusal);
            MtNext {
                state: 2,
                number: answer.number,
                position: answer.position,
                length: 0,
            }
        }
    }
}

#[unsafe(no_mangle)]
pub extern "C" fn mt_read_header(buf: &[u8]) -> MtHeader
    ensures { result ≡ read_of (read_header buf.now) }
{
    structs::of_read(unmarshal::unmarshal_header(buf))
}

// How long the value is, padding and all, is what the check of it answers.
#[unsafe(no_mangle)]
pub extern "C" fn mt_read_fixed(big: bool, offset: usize, buf: &[u8], sig: &[u8]) -> MtFixed
    ensures { result ≡ fixed_of (read_fixed (order_of big) sig.now buf.now offset) (check_value (order_of big) sig.now buf.now offset) }
{
    match read::unmarshal_fixed(structs::order(big), Place(offset), buf, sig) {
        Ok(value) => MtFixed {
            answer: mt_check_value(big, offset, buf, sig),
            kind: read::letter(value),
            bits: read::bits(value),
        },
        Err(refusal) => MtFixed {
            answer: structs::refused(refusal),
            kind: 0,
            bits: 0,
        },
    }
}

#[unsafe(no_mangle)]
pub extern "C" fn mt_lookup(message: &[u8], code: u8, fallback: &[u8]) -> MtPart
    ensures { result ≡ part_of (found_in (read_header message.now) code) (length fallback.now) }
{
    structs::of_found(lookup::find(message, code), fallback.len())
}

#[unsafe(no_mangle)]
pub extern "C" fn mt_write_padding(buf: &mut [u8], place: usize, alignment: usize) -> MtAnswer
    ensures value { result ≡ written_of place (write_at (padding_bytes alignment place) buf.old place).answer }
    ensures buf_after { buf.new ≡ (write_at (padding_bytes alignment place) buf.old place).after }
{
    structs::of_written(place, write::pad_to_align(alignment, buf, Place(place)))
}

#[unsafe(no_mangle)]
pub extern "C" fn mt_write_u16(buf: &mut [u8], place: usize, value: u16, big: bool) -> MtAnswer
    ensures value { result ≡ written_of place (write_at (integer_bytes (order_of big) 2 value) buf.old place).answer }
    ensures buf_after { buf.new ≡ (write_at (integer_bytes (order_of big) 2 value) buf.old place).after }
{
    structs::of_written(
        place,
        write::write_u16(value, structs::order(big), buf, Place(place)),
    )
}

#[unsafe(no_mangle)]
pub extern "C" fn mt_write_u32(buf: &mut [u8], place: usize, value: u32, big: bool) -> MtAnswer
    ensures value { result ≡ written_of place (write_at (integer_bytes (order_of big) 4 value) buf.old place).answer }
    ensures buf_after { buf.new ≡ (write_at (integer_bytes (order_of big) 4 value) buf.old place).after }
{
    structs::of_written(
        place,
        write::write_u32(value, structs::order(big), buf, Place(place)),
    )
}

#[unsafe(no_mangle)]
pub extern "C" fn mt_write_u64(buf: &mut [u8], place: usize, value: u64, big: bool) -> MtAnswer
    ensures value { result ≡ written_of place (write_at (integer_bytes (order_of big) 8 value) buf.old place).answer }
    ensures buf_after { buf.new ≡ (write_at (integer_bytes (order_of big) 8 value) buf.old place).after }
{
    structs::of_written(
        place,
        write::write_u64(value, structs::order(big), buf, Place(place)),
    )
}

#[unsafe(no_mangle)]
pub extern "C" fn mt_write_string(buf: &mut [u8], place: usize, text: &[u8], big: bool) -> MtAnswer
    ensures value { result ≡ written_of place (write_at (string_bytes (order_of big) text.now) buf.old place).answer }
    ensures buf_after { buf.new ≡ (write_at (string_bytes (order_of big) text.now) buf.old place).after }
{
    structs::of_written(
        place,
        texts::write_string(text, structs::order(big), buf, Place(place)),
    )
}

#[unsafe(no_mangle)]
pub extern "C" fn mt_write_signature(buf: &mut [u8], place: usize, sig: &[u8]) -> MtAnswer
    ensures value { (o : Order) → result ≡ written_of place (write_at (signature_bytes o sig.now) buf.old place).answer }
    ensures buf_after { (o : Order) → buf.new ≡ (write_at (signature_bytes o sig.now) buf.old place).after }
{
    structs::of_written(place, texts::write_signature(sig, buf, Place(place)))
}

// A length, and whether it is a whole message's.
fn framed(state: u64, length: usize) -> MtNext
    ensures { result ≡ length_in state length }
{
    MtNext {
        state,
        number: 0,
        position: 0,
        length: length as u64,
    }
}
