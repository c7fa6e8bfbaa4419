// The walk over a value of any type (validate_raw.rs): document 01, port order 4.
ghost use Rattle.std.specs.Prelude.{◌≡◌, List, ℕ, ◌+◌, ◌-◌, ◌≤◌, ◌<◌, length, get_or};
ghost use Rattle.meaning.specs.Types.{Ty};
ghost use Rattle.meaning.specs.Places.{TypeAt, Typed, FieldsAt};
ghost use Rattle.meaning.specs.Reader.{many, reached_of};
ghost use Rattle.meaning.specs.ReadValue.{read, read_var};
ghost use Rattle.validate_raw.specs.Items.{item_of};
ghost use Rattle.validate_raw.specs.Walk.{walked_of, walked_to, item_r, fields_to, FieldsTyped, HoldsItems};

use crate::{array_head, first_bytes};
use basic::spelled;
use meaning::{Fault, Length, Order, Part, Place, Refusal};

// Where a walk stands: a place in the signature beside a place in the bytes.
#[derive(Clone, Copy)]
pub struct Spot {
    pub sig: Place,
    pub buf: Place,
}

// What is limited, and how much of it is left: variants that may stand within one another.
#[derive(Clone, Copy)]
pub struct Left {
    pub levels: usize,
}

// A value of the type at `at`: the first code of the type says who checks it.
#[cycle(walk)]
pub fn value(order: Order, sig: &[u8], buf: &[u8], at: Spot, left: Left) -> Result<Spot, Refusal>
    requires typed { Typed sig.now at.sig.0 }
    requires inside { at.buf.0 ≤ length buf.now }
    ensures { (t : Ty) (e : ℕ) → TypeAt t sig.now at.sig.0 e →
        result ≡ walked_of e (read order (read_var order left.levels) t buf.now at.buf.0) }
{
    let Place(i) = at.sig;
    let Place(off) = at.buf;
    let k = sig[i];
    if k == b'(' {
        structure(order, sig, buf, at, left)
    } else if k == b'v' {
        let past = variant(order, buf, off, left)?;
        Ok(Spot {
            sig: Place(i + 1),
            buf: past,
        })
    } else if first_bytes::is_composite(k) {
        array(order, sig, buf, at, left)
    } else {
        let past = basic::base(order, k, buf, off)?;
        Ok(Spot {
            sig: Place(i + 1),
            buf: past,
        })
    }
}

// A struct, whose opening bracket stands at `at`: padding, and its fields.
#[cycle(walk)]
fn structure(order: Order, sig: &[u8], buf: &[u8], at: Spot, left: Left) -> Result<Spot, Refusal>
    requires typed { Typed sig.now at.sig.0 }
    requires bracket { get_or sig.now at.sig.0 0 ≡ 40 }
    requires inside { at.buf.0 ≤ length buf.now }
    ensures { (t : Ty) (e : ℕ) → TypeAt t sig.now at.sig.0 e →
        result ≡ walked_of e (read order (read_var order left.levels) t buf.now at.buf.0) }
{
    let inside = Spot {
        sig: Place(at.sig.0 + 1),
        buf: util::padded(buf, at.buf.0, types::align(b'('))?,
    };
    fields(order, sig, buf, inside, left)
}

// The fields of a struct from `at` on, up to its closing bracket. Basic values are checked here, for speed.
#[cycle(walk)]
fn fields(order: Order, sig: &[u8], buf: &[u8], at: Spot, left: Left) -> Result<Spot, Refusal>
    requires fields_typed { FieldsTyped sig.now at.sig.0 }
    requires inside { at.buf.0 ≤ length buf.now }
    ensures { (ts : List Ty) (e : ℕ) → FieldsAt ts sig.now at.sig.0 e →
        result ≡ walked_to e (fields_to order (read_var order left.levels) ts buf.now at.buf.0) }
{
    let mut here = at;
    loop {
        let i = here.sig.0;
        let k = sig[i];
        if k == b')' {
            return Ok(Spot {
                sig: Place(i + 1),
                buf: here.buf,
            });
        }
        if first_bytes::is_composite(k) {
            here = value(order, sig, buf, here, left)?;
        } else {
            here.buf = basic::base(order, k, buf, here.buf.0)?;
            here.sig = Place(i + 1);
        }
    }
}

// An array or a dict, whose type stands at `at`. A dict alone is walked over as one in an array is.
#[cycle(walk)]
fn array(order: Order, sig: &[u8], buf: &[u8], at: Spot, left: Left) -> Result<Spot, Refusal>
    requires holds_items { HoldsItems sig.now at.sig.0 }
    requires inside { at.buf.0 ≤ length buf.now }
    ensures { (t : Ty) (e : ℕ) → TypeAt t sig.now at.sig.0 e →
        result ≡ walked_of e (read order (read_var order left.levels) t buf.now at.buf.0) }
{
    let i = first_bytes::element_place(sig, at.sig.0);
    let k = sig[i];
    let align = first_bytes::element_align(k);
    let Part(first, Length(long)) = array_head::opening(order, buf, at.buf.0, align)?;
    let stop = first.0 + long;
    let size = first_bytes::whole(k);
    if size == 0 {
        let inside = Spot {
            sig: Place(i),
            buf: first,
        };
        elements(order, sig, &buf[..stop], inside, left)
    } else if long % size == 0 {
        Ok(Spot {
            sig: Place(i + 1),
            buf: Place(stop),
        })
    } else {
        Err(meaning::refuse(Fault::NotEnoughBytes, first.0))
    }
}

// Elements or entries of the type at `at`, which fill the bytes to the end.
#[cycle(walk)]
fn elements(order: Order, sig: &[u8], buf: &[u8], at: Spot, left: Left) -> Result<Spot, Refusal>
    requires typed { Typed sig.now at.sig.0 }
    requires inside { at.buf.0 ≤ length buf.now }
    ensures { (t : Ty) (e : ℕ) → TypeAt t sig.now at.sig.0 e →
        result ≡ walked_of e (many (length buf.now - at.buf.0) (item_r order (read_var order left.levels) (item_of t)) buf.now at.buf.0) }
{
    let Place(i) = at.sig;
    let k = sig[i];
    if first_bytes::is_composite(k) {
        composites(order, sig, buf, at, left)
    } else {
        let past = basic::basics(order, k, buf, at.buf.0)?;
        Ok(Spot {
            sig: Place(i + 1),
            buf: past,
        })
    }
}

// The same where they are no basic values: one loop for elements and entries. Where there is none, none says where its type ends.
#[cycle(walk)]
fn composites(order: Order, sig: &[u8], buf: &[u8], at: Spot, left: Left) -> Result<Spot, Refusal>
    requires typed { Typed sig.now at.sig.0 }
    requires inside { at.buf.0 ≤ length buf.now }
    ensures { (t : Ty) (e : ℕ) → TypeAt t sig.now at.sig.0 e →
        result ≡ walked_of e (many (length buf.now - at.buf.0) (item_r order (read_var order left.levels) (item_of t)) buf.now at.buf.0) }
{
    let Place(i) = at.sig;
    let Place(first) = at.buf;
    if first == buf.len() {
        return Ok(Spot {
            sig: Place(signature::skip(sig, i)),
            buf: at.buf,
        });
    }
    let mut past = at;
    while past.buf.0 < buf.len() {
        let next = Spot {
            sig: Place(i),
            buf: past.buf,
        };
        past = element(order, sig, buf, next, left)?;
    }
    Ok(past)
}

// One element of an array, or one entry of a dict: no array has dicts alone for elements.
#[cycle(walk)]
fn element(order: Order, sig: &[u8], buf: &[u8], at: Spot, left: Left) -> Result<Spot, Refusal>
    requires typed { Typed sig.now at.sig.0 }
    requires inside { at.buf.0 ≤ length buf.now }
    ensures { (t : Ty) (e : ℕ) → TypeAt t sig.now at.sig.0 e →
        result ≡ walked_of e (item_r order (read_var order left.levels) (item_of t) buf.now at.buf.0) }
{
    let i = at.sig.0;
    if sig[i] == b'{' {
        entry(order, sig, buf, at, left)
    } else {
        value(order, sig, buf, at, left)
    }
}

// One entry of a dict, whose opening bracket stands at `at`: padding, a key, and a value. Its type ends past the closing bracket.
#[cycle(walk)]
fn entry(order: Order, sig: &[u8], buf: &[u8], at: Spot, left: Left) -> Result<Spot, Refusal>
    requires typed { Typed sig.now at.sig.0 }
    requires bracket { get_or sig.now at.sig.0 0 ≡ 123 }
    requires inside { at.buf.0 ≤ length buf.now }
    ensures { (t : Ty) (e : ℕ) → TypeAt t sig.now at.sig.0 e →
        result ≡ walked_of e (item_r order (read_var order left.levels) (item_of t) buf.now at.buf.0) }
{
    let key = at.sig.0 + 1;
    let start = util::padded(buf, at.buf.0, types::align(b'('))?;
    let held = Spot {
        sig: Place(key + 1),
        buf: basic::base(order, sig[key], buf, start.0)?,
    };
    let past = value(order, sig, buf, held, left)?;
    Ok(Spot {
        sig: Place(past.sig.0 + 1),
        buf: past.buf,
    })
}

// A variant: its signature, and then a value of that type, for which one level less is left.
#[cycle(walk)]
fn variant(order: Order, buf: &[u8], off: usize, left: Left) -> Result<Place, Refusal>
    requires { off ≤ length buf.now }
    ensures { result ≡ reached_of (read_var order left.levels buf.now off) }
{
    let levels = left.levels;
    if levels == 0 {
        return Err(meaning::refuse(Fault::VariantTooDeep, off));
    }
    let Part(Place(first), Length(long)) = spelled::inner(buf, off)?;
    let stop = first + long;
    let inside = Spot {
        sig: Place(0),
        buf: Place(stop + 1),
    };
    let left = Left { levels: levels - 1 };
    let past = value(order, &buf[first..stop], buf, inside, left)?;
    Ok(past.buf)
}
