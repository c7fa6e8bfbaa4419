// Bytes put into a buffer that has room for them: numbers in both byte orders, zeros, and the bytes of a text.
ghost use Rattle.std.specs.Prelude.{◌≡◌, ◌+◌, ◌≤◌, T, length, replicate};
ghost use Rattle.std.proofs.lemmas.List.Edits.{sets};
ghost use Rattle.meaning.specs.Number.{store as store_of};
ghost use Rattle.meaning.specs.Writers.{is_alignment};

use meaning::Order;

// The `width` bytes of `x`, in an order.
pub fn store(order: Order, width: usize, buf: &mut [u8], at: usize, x: u64)
    requires { (at + width ≤ length buf.old) × T (is_alignment width) }
    ensures { buf.new ≡ sets buf.old at (store_of order width x) }
{
    match order {
        Order::Little => put(buf, at, &x.to_le_bytes()[..width]),
        Order::Big => put(buf, at, &x.to_be_bytes()[8 - width..]),
    }
}

// The bytes of a number: its width is a constant wherever `store` is called, so this becomes one store.
#[tactic(auto, using(crate::proofs::store::Stores::placed))]
fn put(buf: &mut [u8], at: usize, val: &[u8])
    requires { at + length val.now ≤ length buf.old }
    ensures { buf.new ≡ sets buf.old at val.now }
{
    buf[at..at + val.len()].copy_from_slice(val);
}

#[tactic(auto, using(crate::proofs::store::Stores::placed))]
pub fn put_zeros(buf: &mut [u8], at: usize, count: usize)
    requires { at + count ≤ length buf.old }
    ensures { buf.new ≡ sets buf.old at (replicate count 0) }
{
    buf[at..at + count].fill(0);
}

// A text, eight bytes at a time and then one: `copy_from_slice` of a length that is not constant becomes a call of `memmove`, and the archive
// needs no such name from outside.
pub fn copy(buf: &mut [u8], at: usize, val: &[u8])
    requires { at + length val.now ≤ length buf.old }
    ensures { buf.new ≡ sets buf.old at val.now }
{
    let (eights, rest) = val.as_chunks::<8>();
    let mut to = at;
    for eight in eights {
        put(buf, to, eight);
        to += 8;
    }
    for b in rest {
        buf[to] = *b;
        to += 1;
    }
}
