// Prints what stands in a stream of messages, as `dbus-monitor --binary` writes it: a paragraph for each message, and at the first one that
// is refused why and where. After a refusal nothing vouches for where the next message begins, so it stops there, and says so.
#![tactic(auto)]

mod buffer;
mod dump;
mod hint;
mod inspector;
mod names;
mod refusals;
mod says;
mod shown;
mod words;

use buffer::Held;
use inspector::Inspector;
use std::io;
use std::io::BufWriter;

// The longest message that is held has so many bytes.
const ROOM: usize = 6_291_456;

fn main(rt: HostRuntime) -> io::Result<()> {
    let held = Held::new(rt.alloc(), ROOM)?;
    let out = BufWriter::new(rt.alloc(), io::writer(&rt))?;
    Inspector::new(rt.stdin(), out, held).run()
}
