// Alignments and fixed sizes by type code, in one constant table.
#![tactic(auto)]

ghost use Rattle.std.specs.Prelude.{◌≡◌, ◌+◌, ◌*◌};
ghost use Rattle.types.specs.Codes.{align_code, size_code};

// The codes from `(` to `y`: the high hex digit is the alignment, the low one the fixed size (0 where the type has none), and 0x00 is no type.
// A const array is rebuilt on the stack at each use: read it once per value, never once per byte.
// Two digits of one byte and no struct: an array of structs misses the bar of speed, as each look-up builds it anew (18 instructions more).
const TYPES: [u8; 82] = [
    0x80, 0x00, 0x00, 0x00, 0x00, 0x00, 0x00, 0x00, 0x00, 0x00, 0x00, 0x00, 0x00, 0x00, 0x00, 0x00,
    0x00, 0x00, 0x00, 0x00, 0x00, 0x00, 0x00, 0x00, 0x00, 0x00, 0x00, 0x00, 0x00, 0x00, 0x00, 0x00,
    0x00, 0x00, 0x00, 0x00, 0x00, 0x00, 0x00, 0x00, 0x00, 0x00, 0x00, 0x00, 0x00, 0x00, 0x00, 0x00,
    0x00, 0x00, 0x00, 0x00, 0x00, 0x00, 0x00, 0x00, 0x00, 0x40, 0x44, 0x00, 0x88, 0x00, 0x00, 0x10,
    0x44, 0x44, 0x00, 0x00, 0x00, 0x00, 0x22, 0x40, 0x00, 0x22, 0x00, 0x40, 0x88, 0x44, 0x10, 0x00,
    0x88, 0x11,
];

// The table's entry for a type code, 0 outside the table.
fn entry(code: u8) -> u8
    ensures { result ≡ align_code code * 16 + size_code code }
{
    match code {
        b'('..=b'y' => TYPES[(code - b'(') as usize],
        _ => 0,
    }
}

// What the values of this type are aligned to.
pub fn align(code: u8) -> usize
    ensures { result ≡ align_code code }
{
    (entry(code) / 16) as usize
}

// How many bytes the values of this type take, 0 where that differs from value to value.
pub fn size(code: u8) -> usize
    ensures { result ≡ size_code code }
{
    (entry(code) % 16) as usize
}
