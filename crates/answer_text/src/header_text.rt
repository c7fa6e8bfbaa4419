// A message's header as text, put into a buffer that the caller lends. Each function that puts answers the place behind its text.
ghost use Rattle.std.specs.Prelude.{◌≡◌};
ghost use Rattle.meaning.specs.Message.{mark as mark_of};
ghost use Rattle.text_out.specs.Puts.{Puts};
ghost use Rattle.answer_text.specs.Headers.{mark_texts, numbers_of, number_texts, entry_texts, entries_of, each_texts, head_texts, whole_texts, header_texts};

use crate::{labelled, refused};
use meaning::{Entry, Fields, Header, Order, Refusal};
use text_out::put;

fn mark(out: &mut [u8], at: usize, order: Order) -> usize
    ensures { Puts out.old at (mark_texts (mark_of order)) result out.new }
{
    match order {
        Order::Little => put(out, at, b" l"),
        Order::Big => put(out, at, b" B"),
    }
}

// The numbers of a header, in the order in which they are said.
fn numbers(out: &mut [u8], at: usize, h: Header) -> usize
    ensures { Puts out.old at (each_texts number_texts (numbers_of h)) result out.new }
{
    let all = [
        u64::from(meaning::kind_code(h.kind)),
        u64::from(h.flags),
        u64::from(h.version),
        u64::from(h.serial),
        h.body.0 as u64,
        h.body_length.0 as u64,
    ];
    let mut behind = at;
    for n in all {
        behind = labelled(out, behind, b" ", n);
    }
    behind
}

fn entry(out: &mut [u8], at: usize, e: Entry) -> usize
    ensures { Puts out.old at (entry_texts e) result out.new }
{
    match e {
        Entry::Absent => put(out, at, b" -"),
        Entry::Number(n) => labelled(out, at, b" n:", u64::from(n)),
        Entry::Text(place, length) => {
            let behind = labelled(out, at, b" t:", place.0 as u64);
            labelled(out, behind, b":", length.0 as u64)
        }
    }
}

fn entries(out: &mut [u8], at: usize, f: Fields) -> usize
    ensures { Puts out.old at (each_texts entry_texts (entries_of f)) result out.new }
{
    let all = [
        f.object,
        f.interface,
        f.member,
        f.error_name,
        f.response_serial,
        f.destination,
        f.sender,
        f.signature,
        f.num_fds,
    ];
    let mut behind = at;
    for e in all {
        behind = entry(out, behind, e);
    }
    behind
}

// A header but for its fields.
fn head(out: &mut [u8], at: usize, h: Header) -> usize
    ensures { Puts out.old at (head_texts h) result out.new }
{
    let behind = labelled(out, at, b"ok ", h.length.0 as u64);
    let past = mark(out, behind, h.order);
    numbers(out, past, h)
}

fn whole(out: &mut [u8], at: usize, h: Header) -> usize
    ensures { Puts out.old at (whole_texts h) result out.new }
{
    let behind = head(out, at, h);
    entries(out, behind, h.fields)
}

// A header that was read, with its nine fields, or the message's refusal.
pub fn header(out: &mut [u8], at: usize, r: Result<Header, Refusal>) -> usize
    ensures { Puts out.old at (header_texts r) result out.new }
{
    match r {
        Ok(h) => whole(out, at, h),
        Err(r) => refused(out, at, r),
    }
}
