// The line that the dump program prints for two copies: what discovery answers, in words and decimal numbers.
// Every call is total.
#![tactic(auto)]

ghost use Rattle.std.specs.Prelude.{◌≡◌, Ok, Err};
ghost use Rattle.endian.specs.Bytes.{splice};
ghost use Rattle.refusal.specs.Reasons.{refusal_of};
ghost use Rattle.discovery.specs.Discovery.{discovery};
ghost use Rattle.text.specs.Decimal.{decimal};
ghost use Rattle.text.specs.Text.{text, added};
ghost use Rattle.dump_line.specs.Line.{side_word, area_word, other_word, line_of, dump_line, written_of};

use block::BlockFields;
use discovery::{Copies, Found};
use layout::{Area, Side};
use refusal::{Reason, Refusal};
use text::Text;

// Room for every line, with its end.
pub const LINE_BYTES: usize = 128;

// The text with the copy's name and a space.
fn add_side(t: Text, s: Side) -> Text
    ensures { text result ≡ added (text t) (side_word s) }
{
    match s {
        Side::Front => t.add(b"front "),
        Side::Back => t.add(b"back "),
    }
}

// The text with the area's name and a space.
fn add_area(t: Text, x: Area) -> Text
    ensures { text result ≡ added (text t) (area_word x) }
{
    match x {
        Area::A => t.add(b"a "),
        Area::B => t.add(b"b "),
    }
}

// The text with a reason's refusal number.
fn add_reason(t: Text, e: Reason) -> Text
    ensures { text result ≡ added (text t) (decimal (refusal_of e).number) }
{
    t.decimal(Refusal::from(e).number as u64)
}

// The text with `both`, or with the other copy's refusal number.
fn add_other(t: Text, o: Result<BlockFields, Reason>) -> Text
    ensures { text result ≡ added (text t) (other_word o) }
{
    match o {
        Ok(_) => t.add(b"both"),
        Err(e) => add_reason(t, e),
    }
}

// The line for a refusal.
fn refused(e: Reason) -> Text
    ensures { text result ≡ line_of (Err e) }
{
    add_reason(Text::new().add(b"refused "), e).add(b"\n")
}

// The line for a found record: copy, area, length, seconds, nanoseconds, and the other copy.
fn found(a: Found) -> Text
    ensures { text result ≡ line_of (Ok a) }
{
    let r = a.finding;
    let side = r.side;
    let area = r.area;
    let place = add_area(add_side(Text::new().add(b"found "), side), area);
    let length = place.decimal(r.bytes as u64).add(b" ");
    let seconds = length.decimal(r.seconds).add(b" ");
    let time = seconds.decimal(r.nanoseconds as u64).add(b" ");
    add_other(time, a.other).add(b"\n")
}

// The line for an answer of discovery.
fn line_of(a: Result<Found, Reason>) -> Text
    ensures { text result ≡ line_of a }
{
    match a {
        Ok(f) => found(f),
        Err(e) => refused(e),
    }
}

// Writes the line for a front and a back copy, with its end, to the start of out, and answers its length. Bytes past it
// stay. Where it has no room, the only refusal, 1, nothing is written; LINE_BYTES are room for every line.
pub fn line(c: Copies<'_>, out: &mut [u8]) -> Result<usize, Reason>
    ensures value { result ≡ written_of out.old (line_of (discovery c.entry.front.now c.entry.back.now)) }
    ensures out_after { out.new ≡ splice out.old 0 (line_of (discovery c.entry.front.now c.entry.back.now)) }
{
    let t = line_of(discovery::discover(c));
    let v = t.as_bytes();
    if endian::put(out, 0, v) {
        Ok(v.len())
    } else {
        Err(Reason::SliceSize)
    }
}

// The same for a dump: the front copy, then the back. For one that is not as long as two copies it is the line of number 1.
pub fn dump_line(d: &[u8], out: &mut [u8]) -> Result<usize, Reason>
    ensures value { result ≡ written_of out.old (dump_line d.now) }
    ensures out_after { out.new ≡ splice out.old 0 (dump_line d.now) }
{
    let n = layout::copy_bytes();
    let c = Copies {
        front: endian::window(d, 0, n),
        back: endian::window(d, n, d.len()),
    };
    line(c, out)
}
