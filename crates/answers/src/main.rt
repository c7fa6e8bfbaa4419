// Answers questions, one a line of standard input, each by a line of standard output. Bytes are in hexadecimal, `-` for none.
//   value l|B OFFSET SIG BYTES     ok LENGTH, or no POSITION NUMBER
//   fixed l|B OFFSET SIG BYTES     ok KIND VALUE, or no POSITION NUMBER
//   sig BYTES                      ok COUNT, or no 0 NUMBER
//   message BYTES                  ok LENGTH, or no POSITION NUMBER
//   next BYTES                     whole LENGTH, cut LENGTH, or no POSITION NUMBER
//   header BYTES                   ok LENGTH l|B TYPE FLAGS VERSION SERIAL BODY_PLACE BODY_LENGTH and nine fields, each -, n:NUMBER or
//                                  t:PLACE:LENGTH; or no POSITION NUMBER
//   field CODE MESSAGE FALLBACK    text BYTES
//   pad PLACE ALIGN BUF; w16|w32|w64 l|B PLACE NUMBER BUF; wstr l|B PLACE TEXT BUF; wsig PLACE SIG BUF
//                                  ok NEWPLACE BUF, or no POSITION NUMBER BUF, with the buffer as it is afterwards
// Any other line is answered by bad. The file stdout was made by models of document 01 in another language, which walk values and messages by
// recursion over parsed types; where document 01 lists no difference, it was held to the original crate's answers too.
#![tactic(auto)]

mod input;
mod questions;

use std::io;

fn main(rt: HostRuntime) -> io::Result<()> {
    input::answer_input(&rt, &mut rt.stdin())
}
