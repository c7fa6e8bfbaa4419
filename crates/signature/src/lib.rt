// Signatures: the grammar check, one pass over the bytes, and the place after a type.
#![tactic(auto)]

ghost use Rattle.std.specs.Prelude.{◌≡◌, Bool, List, [], ◌∷◌, ℕ, ◌+◌, ◌<◌, ◌≤◌, ◌^◌, length};
ghost use Rattle.meaning.specs.Types.{Base, Ty};
ghost use Rattle.meaning.specs.Signature.{Stack, Step, is_base, shallow as shallow_at, toks, find, put as put_step, put_base, begin as begin_step, curl as curl_step, close as close_step, uncurl as uncurl_step, step, run, finish, floor, to, parse};
ghost use Rattle.meaning.specs.ReadValue.{counted_of, check_signature};
ghost use Rattle.meaning.specs.Places.{Typed, TypeAt};
ghost use Rattle.signature.specs.Codes.{base_tok, key_tok};
ghost use Rattle.signature.specs.Marks.{Follows, After, Ready, Leaf, Whole, WholeReady, Begins, BeginsReady};
ghost use Rattle.signature.specs.Ends.{bracketed};

use meaning::{Fault, Refusal, refuse};

// Bytes of a signature.
const MOST: usize = 255;

// A type under this many structs, or this many arrays, lies too deep (K3).
const NESTING: usize = 32;

// What stands open at a place of the signature.
#[derive(Clone, Copy, PartialEq, Eq)]
enum Mark {
    // Nothing: the first place of the row.
    Floor,
    // A struct with no field yet.
    Empty,
    // A struct with a field.
    Fields,
    // A dict that waits for its values' type, for its bracket, for its key.
    Value,
    End,
    Key,
    Array,
}

// Not one struct with the row of marks, and methods: its numbers then stay in memory, 11 % more instructions at the value [1] of type `ai`.
// Where the pass is: the place of the last mark, the structs and arrays that are open there (a dict counts as an array),
// the whole types so far, and whether none of them lay too deep.
#[derive(Clone, Copy)]
struct State {
    top: usize,
    structs: usize,
    arrays: usize,
    types: usize,
    fine: bool,
}

// Whether a type may lie under so many structs and arrays.
fn shallow(structs: usize, arrays: usize) -> bool
    ensures { result ≡ shallow_at structs arrays }
{
    (structs < NESTING) & (arrays < NESTING)
}

// The codes of the basic types.
fn is_basic(c: u8) -> bool
    ensures { result ≡ base_tok (find toks c) }
{
    match c {
        b'a' | b'(' | b'v' => false,
        _ => types::align(c) != 0,
    }
}

// K2: Boolean is no dict key; every other basic type is one.
fn is_key(c: u8) -> bool
    ensures { result ≡ key_tok (find toks c) }
{
    c != b'b' && is_basic(c)
}

// A whole type has been read: it closes the arrays that wait for it, and counts where it stands then.
fn put(marks: &mut [Mark; 256], mut state: State) -> Result<State, Fault>
    requires { WholeReady marks.old state }
    ensures { (x : Step) → Whole x marks.old state → After x marks.new (state.top + state.types + 1) result }
{
    let mut top = state.top;
    let mut arrays = state.arrays;
    while marks[top] == Mark::Array {
        top -= 1;
        arrays -= 1;
    }
    state.top = top;
    state.arrays = arrays;
    match marks[top] {
        Mark::Floor => {
            state.types += 1;
            Ok(state)
        }
        Mark::Empty => {
            marks[top] = Mark::Fields;
            Ok(state)
        }
        Mark::Fields => Ok(state),
        Mark::Value => {
            marks[top] = Mark::End;
            Ok(state)
        }
        _ => Err(Fault::InvalidSignature),
    }
}

// A type of one code.
fn leaf(marks: &mut [Mark; 256], mut state: State) -> Result<State, Fault>
    requires { Ready marks.old state }
    ensures { (k : Stack) (t : Ty) → Leaf t → Follows k marks.old state → After (put_step k t) marks.new (state.top + state.types + 1) result }
{
    state.fine = state.fine & shallow(state.structs, state.arrays);
    put(marks, state)
}

// A basic type, or the key that a dict waits for.
fn basic(marks: &mut [Mark; 256], state: State, c: u8) -> Result<State, Fault>
    requires { Ready marks.old state }
    ensures { (k : Stack) (b : Base) → find toks c ≡ is_base b → Follows k marks.old state → After (put_base k b) marks.new (state.top + state.types + 1) result }
{
    let top = state.top;
    match marks[top] {
        Mark::Key if is_key(c) => {
            marks[top] = Mark::Value;
            Ok(state)
        }
        Mark::Key => Err(Fault::InvalidSignature),
        _ => leaf(marks, state),
    }
}

// A type begins with the mark, where one may.
fn begin(marks: &mut [Mark; 256], mut state: State, mark: Mark) -> Result<State, Fault>
    requires { BeginsReady mark marks.old state }
    ensures { (k n : Stack) → Begins k n mark marks.old state → After (begin_step k n) marks.new (state.top + state.types + 1) result }
{
    let top = state.top;
    match marks[top] {
        Mark::End | Mark::Key => Err(Fault::InvalidSignature),
        _ => {
            marks[top + 1] = mark;
            state.top = top + 1;
            Ok(state)
        }
    }
}

// `{` begins a dict: in an array, or (K1) alone.
fn curl(marks: &mut [Mark; 256], mut state: State) -> Result<State, Fault>
    requires { Ready marks.old state }
    ensures { (k : Stack) → Follows k marks.old state → After (curl_step k) marks.new (state.top + state.types + 1) result }
{
    let top = state.top;
    if marks[top] == Mark::Array {
        marks[top] = Mark::Key;
        return Ok(state);
    }
    state.arrays += 1;
    begin(marks, state, Mark::Key)
}

// `)` closes a struct, which has at least one field.
fn close(marks: &mut [Mark; 256], mut state: State) -> Result<State, Fault>
    requires { Ready marks.old state }
    ensures { (k : Stack) → Follows k marks.old state → After (close_step k) marks.new (state.top + state.types + 1) result }
{
    let top = state.top;
    match marks[top] {
        Mark::Fields => {
            state.top = top - 1;
            state.structs -= 1;
            put(marks, state)
        }
        Mark::Empty => Err(Fault::EmptyStruct),
        _ => Err(Fault::InvalidSignature),
    }
}

// `}` closes a dict once its values' type is read.
fn uncurl(marks: &mut [Mark; 256], mut state: State) -> Result<State, Fault>
    requires { Ready marks.old state }
    ensures { (k : Stack) → Follows k marks.old state → After (uncurl_step k) marks.new (state.top + state.types + 1) result }
{
    let top = state.top;
    if marks[top] == Mark::End {
        state.top = top - 1;
        state.arrays -= 1;
        return put(marks, state);
    }
    Err(Fault::InvalidSignature)
}

// One byte of the signature.
fn advance(marks: &mut [Mark; 256], mut state: State, c: u8) -> Result<State, Fault>
    requires { Ready marks.old state }
    ensures { (k : Stack) → Follows k marks.old state → After (step (find toks c) k) marks.new (state.top + state.types + 1) result }
{
    // before the other codes: most bytes are basic types, and behind the `match` they cost 16 % more time
    if is_basic(c) {
        return basic(marks, state, c);
    }
    match c {
        b'a' => {
            state.arrays += 1;
            begin(marks, state, Mark::Array)
        }
        b'(' => {
            state.structs += 1;
            begin(marks, state, Mark::Empty)
        }
        b')' => close(marks, state),
        b'{' => curl(marks, state),
        b'}' => uncurl(marks, state),
        b'v' => leaf(marks, state),
        _ => Err(Fault::InvalidSignature),
    }
}

// What the state at the end of a signature amounts to: everything must be closed, and nesting is looked at last.
fn finished(state: State) -> Result<usize, Refusal>
    ensures { (k : Stack) (m : List Mark) → Follows k m state → result ≡ counted_of (finish (to k)) }
{
    if state.top != 0 {
        return Err(refuse(Fault::InvalidSignature, 0));
    }
    if state.fine {
        Ok(state.types)
    } else {
        Err(refuse(Fault::NestingTooDeep, 0))
    }
}

// One pass over a signature that is not too long.
fn parse_bytes(sig: &[u8]) -> Result<usize, Refusal>
    requires { length sig.now ≤ 255 }
    ensures { result ≡ counted_of (finish (run sig.now (floor []))) }
{
    let mut marks = [Mark::Floor; 256];
    let mut state = State {
        top: 0,
        structs: 0,
        arrays: 0,
        types: 0,
        fine: true,
    };
    for c in sig {
        match advance(&mut marks, state, *c) {
            Ok(next) => state = next,
            Err(fault) => return Err(refuse(fault, 0)),
        }
    }
    finished(state)
}

// A signature of one byte, which most variants have: the table tells, with no row of marks.
fn parse_byte(c: u8) -> Result<usize, Refusal>
    ensures { result ≡ counted_of (parse (c ∷ [])) }
{
    if c == b'v' || is_basic(c) {
        Ok(1)
    } else {
        Err(refuse(Fault::InvalidSignature, 0))
    }
}

// Zero or more types: how many, or the first fault, left to right.
pub fn parse_description(sig: &[u8]) -> Result<usize, Refusal>
    ensures { result ≡ counted_of (parse sig.now) }
{
    if MOST < sig.len() {
        return Err(refuse(Fault::SignatureTooLong, 0));
    }
    if sig.len() == 1 {
        return parse_byte(sig[0]);
    }
    parse_bytes(sig)
}

// A bare signature: at least one type.
pub fn validate_signature(sig: &[u8]) -> Result<usize, Refusal>
    ensures { result ≡ check_signature sig.now }
{
    if sig.len() == 0 {
        return Err(refuse(Fault::EmptySignature, 0));
    }
    parse_description(sig)
}

// The brackets that are open after a byte.
fn bracket(c: u8, depth: usize) -> usize
    requires { depth < 2 ^ 63 }
    ensures { result ≡ bracketed c depth }
{
    match c {
        b'(' | b'{' => depth + 1,
        b')' | b'}' => depth.saturating_sub(1),
        _ => depth,
    }
}

// The place after the type that stands at `at`: past the arrays' codes, then one code, or all to the bracket that closes the first.
// `while`: each loop seeks a place, which the last loop and the answer go on from.
pub fn skip(sig: &[u8], at: usize) -> usize
    requires { Typed sig.now at }
    ensures { (t : Ty) (e : ℕ) → TypeAt t sig.now at e → result ≡ e }
{
    let mut i = at;
    while sig[i] == b'a' {
        i += 1;
    }
    let mut depth = bracket(sig[i], 0);
    i += 1;
    while depth != 0 {
        depth = bracket(sig[i], depth);
        i += 1;
    }
    i
}
