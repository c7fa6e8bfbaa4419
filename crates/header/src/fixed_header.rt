// The first 12 bytes of a message (unmarshal.rs): document 01, port order 5.
ghost use Rattle.std.specs.Prelude.{◌≡◌};
ghost use Rattle.meaning.specs.ReadMessage.{order_of, fixed_r};
ghost use Rattle.header.specs.FixedHeader.{began_of};

use meaning::{Fault, Length, MessageType, Order, Refusal};
use util::integers;

// What the first 12 bytes say.
#[derive(Clone, Copy)]
pub struct Start {
    pub order: Order,
    pub kind: MessageType,
    pub flags: u8,
    pub version: u8,
    pub serial: u32,
    pub body: Length,
}

// Any byte but the mark of little-endian is taken for big: `fixed` alone asks for a mark. Not by `Order::try_from`: the edits of `byteorder` are of its marks.
pub fn byteorder(c: u8) -> Order
    ensures { result ≡ order_of c }
{
    match c {
        b'l' => Order::Little,
        _ => Order::Big,
    }
}

// The first 12 bytes.
pub fn fixed(buf: &[u8]) -> Result<Start, Refusal>
    ensures { result ≡ began_of (fixed_r buf.now 0) }
{
    if buf.len() < 12 {
        return Err(meaning::refuse(Fault::NotEnoughBytes, 0));
    }
    let order = Order::try_from(buf[0])?;
    let kind = MessageType::try_from(buf[1])?;
    Ok(Start {
        order,
        kind,
        flags: buf[2],
        version: buf[3],
        serial: integers::load32(order, buf, 8) as u32,
        body: Length(integers::load32(order, buf, 4) as usize),
    })
}
