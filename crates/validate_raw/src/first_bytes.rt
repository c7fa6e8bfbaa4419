// What the first bytes of a type tell the walk over its values (validate_raw.rs): document 01, port order 4.
ghost use Rattle.std.specs.Prelude.{◌≡◌, ℕ, ◌+◌};
ghost use Rattle.meaning.specs.Places.{Typed};
ghost use Rattle.validate_raw.specs.FirstBytes.{whole_code, composite, element_place, element_align};

// The size of the elements of an array whose number is all that is tested, by their code; 0 for any other.
// `b` has bits that are no Boolean. `i` is kept one by one, as in the crate: there the fault of a length that is no whole number
// stands at the last element, and not at the first.
pub fn whole(k: u8) -> usize
    ensures { result ≡ whole_code k }
{
    match k {
        b'b' | b'i' => 0,
        _ => types::size(k),
    }
}

// Whether a type begins with this code that is no basic type.
pub fn is_composite(k: u8) -> bool
    ensures { result ≡ composite k }
{
    matches!(k, b'a' | b'(' | b'{' | b'v')
}

// Where the element of the array at `at` stands in the signature. A dict alone begins with its entry.
pub fn element_place(sig: &[u8], at: usize) -> usize
    requires { Typed sig.now at }
    ensures { result ≡ element_place sig.now at }
{
    if sig[at] == b'a' { at + 1 } else { at }
}

// What an array's elements or a dict's entries are aligned to, by the first code of their type.
pub fn element_align(k: u8) -> usize
    ensures { result ≡ element_align k }
{
    match k {
        b'{' => types::align(b'('),
        _ => types::align(k),
    }
}
