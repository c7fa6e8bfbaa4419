// Integers of 16, 32 and 64 bits in both byte orders (util.rs): document 01, port order 1.
ghost use Rattle.std.specs.Prelude.{◌≡◌, ◌+◌, ◌≤◌, T, length};
ghost use Rattle.meaning.specs.Reads.{read_integer};
ghost use Rattle.meaning.specs.Writers.{is_alignment};
ghost use Rattle.util.specs.Loaded.{Loaded};

use meaning::{Fault, Order, Place, Refusal};

// The number that the N bytes from `at` on stand for, the least first: what is missing of eight bytes is zero. It becomes one load.
fn little<const N: usize>(buf: &[u8], at: usize) -> u64
    requires { (at + N ≤ length buf.now) × (N ≤ 8) }
    ensures { Loaded Order.Little N buf.now at result }
{
    let mut eight = [0; 8];
    eight[..N].copy_from_slice(&buf[at..at + N]);
    u64::from_le_bytes(eight)
}

// The same with the greatest first.
fn big<const N: usize>(buf: &[u8], at: usize) -> u64
    requires { (at + N ≤ length buf.now) × (N ≤ 8) }
    ensures { Loaded Order.Big N buf.now at result }
{
    let mut eight = [0; 8];
    eight[8 - N..].copy_from_slice(&buf[at..at + N]);
    u64::from_be_bytes(eight)
}

// The 32 bits that the bytes from `at` on stand for: the width of every length.
pub fn load32(order: Order, buf: &[u8], at: usize) -> u64
    requires { at + 4 ≤ length buf.now }
    ensures { Loaded order 4 buf.now at result }
{
    match order {
        Order::Little => little::<4>(buf, at),
        Order::Big => big::<4>(buf, at),
    }
}

// The number that `width` bytes from `at` on stand for.
pub fn load(order: Order, width: usize, buf: &[u8], at: usize) -> u64
    requires { (at + width ≤ length buf.now) × T (is_alignment width) }
    ensures { Loaded order width buf.now at result }
{
    match width {
        8 => match order {
            Order::Little => little::<8>(buf, at),
            Order::Big => big::<8>(buf, at),
        },
        4 => load32(order, buf, at),
        2 => match order {
            Order::Little => little::<2>(buf, at),
            Order::Big => big::<2>(buf, at),
        },
        _ => u64::from(buf[at]),
    }
}

// The integer of `width` bytes at `at`, in the order in which the entry points below refuse.
fn parse(order: Order, at: usize, buf: &[u8], width: usize) -> Result<u64, Refusal>
    requires { T (is_alignment width) }
    ensures { result ≡ read_integer order width buf.now at }
{
    if buf.len() < at {
        return Err(meaning::refuse(Fault::BadOffset, at));
    }
    if buf.len() - at < width {
        return Err(meaning::refuse(Fault::NotEnoughBytes, at));
    }
    Ok(load(order, width, buf, at))
}

pub fn parse_u16(order: Order, offset: Place, buf: &[u8]) -> Result<u64, Refusal>
    ensures { result ≡ read_integer order 2 buf.now offset.0 }
{
    parse(order, offset.0, buf, 2)
}

pub fn parse_u32(order: Order, offset: Place, buf: &[u8]) -> Result<u64, Refusal>
    ensures { result ≡ read_integer order 4 buf.now offset.0 }
{
    parse(order, offset.0, buf, 4)
}

pub fn parse_u64(order: Order, offset: Place, buf: &[u8]) -> Result<u64, Refusal>
    ensures { result ≡ read_integer order 8 buf.now offset.0 }
{
    parse(order, offset.0, buf, 8)
}
