// Text (util.rs, validation.rs): UTF-8, zero bytes and object paths: document 01, port order 2.
#![tactic(auto)]

pub mod strings;

ghost use Rattle.std.specs.Prelude.{◌≡◌, true, List, ◌∷◌, ℕ, ◌<◌};
ghost use Rattle.meaning.specs.Text.{scan, names, is_path};
ghost use Rattle.text.specs.Class.{class_of};
ghost use Rattle.text.specs.Verdict.{text_number, text_fault, plain_bytes, goes_on};

use Class::*;

// The class of a byte: what it is for a path, and what it asks for as the first of a character. ASCII is a character by itself; of the others,
// by what has to follow them: Two c2 to df; LowThree e0, Three e1 to ec, ee and ef, SurThree ed; LowFour f0, Four f1 to f3, TopFour f4.
#[derive(Clone, Copy, Debug, PartialEq, Eq)]
enum Class {
    Zero,
    Plain,
    Slash,
    Name,
    Never,
    Two,
    LowThree,
    Three,
    SurThree,
    LowFour,
    Four,
    TopFour,
}

// The class of every byte value. Each use builds the table anew: it is fetched once, before a loop.
const CLASS: [Class; 256] = [
    Zero, Plain, Plain, Plain, Plain, Plain, Plain, Plain, Plain, Plain, Plain, Plain, Plain,
    Plain, Plain, Plain, Plain, Plain, Plain, Plain, Plain, Plain, Plain, Plain, Plain, Plain,
    Plain, Plain, Plain, Plain, Plain, Plain, Plain, Plain, Plain, Plain, Plain, Plain, Plain,
    Plain, Plain, Plain, Plain, Plain, Plain, Plain, Plain, Slash, Name, Name, Name, Name, Name,
    Name, Name, Name, Name, Name, Plain, Plain, Plain, Plain, Plain, Plain, Plain, Name, Name,
    Name, Name, Name, Name, Name, Name, Name, Name, Name, Name, Name, Name, Name, Name, Name, Name,
    Name, Name, Name, Name, Name, Name, Name, Name, Plain, Plain, Plain, Plain, Name, Plain, Name,
    Name, Name, Name, Name, Name, Name, Name, Name, Name, Name, Name, Name, Name, Name, Name, Name,
    Name, Name, Name, Name, Name, Name, Name, Name, Name, Plain, Plain, Plain, Plain, Plain, Never,
    Never, Never, Never, Never, Never, Never, Never, Never, Never, Never, Never, Never, Never,
    Never, Never, Never, Never, Never, Never, Never, Never, Never, Never, Never, Never, Never,
    Never, Never, Never, Never, Never, Never, Never, Never, Never, Never, Never, Never, Never,
    Never, Never, Never, Never, Never, Never, Never, Never, Never, Never, Never, Never, Never,
    Never, Never, Never, Never, Never, Never, Never, Never, Never, Never, Never, Never, Never, Two,
    Two, Two, Two, Two, Two, Two, Two, Two, Two, Two, Two, Two, Two, Two, Two, Two, Two, Two, Two,
    Two, Two, Two, Two, Two, Two, Two, Two, Two, Two, LowThree, Three, Three, Three, Three, Three,
    Three, Three, Three, Three, Three, Three, Three, SurThree, Three, Three, LowFour, Four, Four,
    Four, TopFour, Never, Never, Never, Never, Never, Never, Never, Never, Never, Never, Never,
];

// What is wrong with a text.
#[derive(Clone, Copy, Debug, PartialEq, Eq)]
pub enum BadText {
    NotUtf8,
    HasZero,
}

// What is still due of a character: how many bytes, and the bounds of the next.
#[derive(Clone, Copy, Debug, PartialEq, Eq)]
struct Due {
    left: usize,
    low: u8,
    high: u8,
}

fn asks(left: usize, low: u8, high: u8) -> Option<Due>
    ensures { (cs : List ℕ) → goes_on result cs ≡ scan cs left low high }
{
    Some(Due { left, low, high })
}

// What a first byte of a class asks for, `None` where no character begins with it.
// ASCII is asked for alone: as an arm of the match it goes by the jump table of all, three instructions more a byte.
fn first(class: Class) -> Option<Due>
    ensures { (b lo hi : ℕ) (cs : List ℕ) → b < 256 → class ≡ class_of b → goes_on result cs ≡ scan (b ∷ cs) 0 lo hi }
{
    if matches!(class, Zero | Plain | Slash | Name) {
        return asks(0, 0, 0);
    }
    match class {
        Two => asks(1, 0x80, 0xbf),
        LowThree => asks(2, 0xa0, 0xbf),
        Three => asks(2, 0x80, 0xbf),
        SurThree => asks(2, 0x80, 0x9f),
        LowFour => asks(3, 0x90, 0xbf),
        Four => asks(3, 0x80, 0xbf),
        TopFour => asks(3, 0x80, 0x8f),
        _ => None,
    }
}

// One byte more.
fn one_more(due: Due, class: Class, b: u8) -> Option<Due>
    requires { class ≡ class_of b }
    ensures { (cs : List ℕ) → goes_on result cs ≡ scan (b ∷ cs) due.left due.low due.high }
{
    if due.left == 0 {
        first(class)
    } else if due.low <= b && b <= due.high {
        asks(due.left - 1, 0x80, 0xbf)
    } else {
        None
    }
}

// The check by classes. Inlined after `plain_bytes` its loop counts twice, an instruction more a byte.
#[inline(never)]
fn walk(s: &[u8]) -> Result<(), BadText>
    ensures { text_number result ≡ text_fault s.now }
{
    let classes = CLASS;
    let mut at = Due {
        left: 0,
        low: 0,
        high: 0,
    };
    let mut zero = false;
    for b in s {
        let class = classes[*b as usize];
        at = one_more(at, class, *b).ok_or(BadText::NotUtf8)?;
        zero |= class == Zero;
    }
    if at.left != 0 {
        return Err(BadText::NotUtf8);
    }
    if zero { Err(BadText::HasZero) } else { Ok(()) }
}

// How many bytes from 1 to 127 `s` begins with.
fn plain_bytes(s: &[u8]) -> usize
    ensures { result ≡ plain_bytes s.now }
{
    s.iter()
        .position(|b| *b == 0 || 127 < *b)
        .unwrap_or(s.len())
}

// Whether `s` is UTF-8 and has no zero byte. Plain text, by far the most, needs no table. A function of its own in the program, too: inlined into
// its callers the loop over plain text has long jumps and lies where it falls, and took a third more time.
#[inline(never)]
pub fn check_text(s: &[u8]) -> Result<(), BadText>
    ensures { text_number result ≡ text_fault s.now }
{
    let plain = plain_bytes(s);
    if plain == s.len() {
        return Ok(());
    }
    walk(&s[plain..])
}

// Whether these are names, with a slash between each two.
fn are_names(s: &[u8]) -> bool
    ensures { result ≡ names s.now true }
{
    let classes = CLASS;
    let mut after_slash = true;
    for b in s {
        let class = classes[*b as usize];
        if class == Name {
            after_slash = false;
        } else if class == Slash && !after_slash {
            after_slash = true;
        } else {
            return false;
        }
    }
    !after_slash
}

// The path rule (validate_object_path).
pub fn is_path(s: &[u8]) -> bool
    ensures { result ≡ is_path s.now }
{
    match s {
        [b'/'] => true,
        [b'/', rest @ ..] => are_names(rest),
        _ => false,
    }
}
