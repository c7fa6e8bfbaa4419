// Signatures among the bytes (validate_raw.rs): values of type g, and the heads of variants. Document 01, port order 4.
ghost use Rattle.std.specs.Prelude.{◌≡◌, ◌≤◌, length};
ghost use Rattle.meaning.specs.Reader.{reached_of};
ghost use Rattle.meaning.specs.ReadValue.{read_sig, read_g};
ghost use Rattle.basic.specs.Spelled.{refusal_in, spelt_of, variant_type_r, inner_of};

use meaning::{Fault, Length, Order, Part, Place, Refusal};
use text::strings;

// Why a signature spells no types: its text is refused, which comes first, or the grammar refuses it, for which a header field has a refusal of its own.
#[derive(Clone, Copy)]
pub enum Misspelt {
    Text(Refusal),
    Grammar(Refusal),
}

impl From<Misspelt> for Refusal {
    ghost from_gives = { λ m r. r ≡ refusal_in m };

    fn from(misspelt: Misspelt) -> Refusal {
        match misspelt {
            Misspelt::Text(refusal) => refusal,
            Misspelt::Grammar(refusal) => refusal,
        }
    }
}

// How many types the signature among the bytes at `off` spells, and the place after it: a value of type g, the head of a variant, and that of a
// header field.
pub fn spelled_types(buf: &[u8], off: usize) -> Result<(usize, Place), Misspelt>
    requires { off ≤ length buf.now }
    ensures { (o : Order) → result ≡ spelt_of off (read_sig o buf.now off) }
{
    let past = strings::read_signature_text(buf, off).map_err(Misspelt::Text)?;
    let first = off + 1;
    let stop = past.0 - 1;
    match signature::parse_description(&buf[first..stop]) {
        Ok(types) => Ok((types, past)),
        Err(refusal) => Err(Misspelt::Grammar(meaning::moved(refusal, off))),
    }
}

// A value of type g, which is as many types as there are.
pub fn signature_value(buf: &[u8], off: usize) -> Result<Place, Refusal>
    requires { off ≤ length buf.now }
    ensures { (o : Order) → result ≡ reached_of (read_g o buf.now off) }
{
    let (_, past) = spelled_types(buf, off)?;
    Ok(past)
}

// The signature of the variant at `off`, which is to spell one type: where it begins, and how long it is.
pub fn inner(buf: &[u8], off: usize) -> Result<Part, Refusal>
    requires { off ≤ length buf.now }
    ensures { (o : Order) → result ≡ inner_of off (variant_type_r o buf.now off) }
{
    let (types, past) = spelled_types(buf, off)?;
    if types == 0 {
        return Err(meaning::refuse(Fault::EmptySignature, off));
    }
    if types != 1 {
        return Err(meaning::refuse(Fault::WrongSignature, off));
    }
    let first = off + 1;
    Ok(Part(Place(first), Length(past.0 - 1 - first)))
}
