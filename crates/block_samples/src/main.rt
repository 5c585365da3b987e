// Runs sample signature blocks through the library, and prints what came of each, a line each; then the places of some
// devices, and what each refusal number says. The samples are the file stdin beside src/: for each a length of two
// bytes, lowest first, then that many bytes; a sample that the input cuts short is taken as far as it goes. The length
// 65,535 is no sample, and ends them: it goes past the end of the input. What must be printed is the file stdout. Both are made by
// samples/blocks.py, which shares nothing with the library. That the program is safe and ends is proved; that it prints
// the right thing is tested. Assumes what `io` and `libc` do.
#![tactic(auto)]

ghost use Rattle.std.specs.Prelude.{◌≤◌, ◌<◌, length};
ghost use Rattle.sampling.specs.Laying.{input_bytes};

use block::{Holding, Reading};
use layout::{CopyMap, Device, DeviceMap};
use refusal::{Reason, Refusal};
use sampling::{number, print, refusal, say, short_hex};
use text::Text;

// The most bytes of a sample.
const SAMPLE_LIMIT: usize = 4096;

// Prints a refusal and ends the line.
fn refused(r: Reason) {
    print(refusal(Refusal::from(r)));
    say(b"\n");
}

// Prints a used entry: seconds.nanoseconds:bytes:checksum.
fn holding(h: Holding) {
    print(number(h.seconds));
    say(b".");
    print(Text::new().decimal(h.nanoseconds as u64));
    say(b":");
    print(Text::new().decimal(h.bytes as u64));
    say(b":");
    print(short_hex(h.checksum));
}

// Prints an area entry.
fn entry(e: Option<Holding>) {
    match e {
        None => {
            say(b" -");
        }
        Some(h) => holding(h),
    }
}

// Prints the device's three numbers.
fn device(d: Device) {
    for n in [d.sectors, d.metadata as u64, d.reserved as u64] {
        print(number(n));
    }
}

// Whether a block that is written from what was read, over bytes 0xEE, is s.
fn written_again(s: &[u8], r: &Reading) -> bool {
    let mut out = [0xEEu8; layout::SECTOR_BYTES];
    block::write(&mut out, &r.pool, &r.blockdev, r.fields).is_ok() & (s == out.as_slice())
}

// Prints the line of an accepted block.
fn accepted(s: &[u8], r: &Reading) {
    say(b"accepted");
    device(r.fields.device);
    say(b" ");
    say(&r.pool);
    say(b" ");
    say(&r.blockdev);
    entry(r.fields.a);
    entry(r.fields.b);
    say(if written_again(s, r) {
        b" same\n"
    } else {
        b" DIFFERENT\n"
    });
}

// Prints the line of a sample.
fn judge(s: &[u8]) {
    match block::read(s) {
        Ok(r) => accepted(s, &r),
        Err(r) => refused(r),
    }
}

// Prints the line of the sample at `from` of s, and answers where the sample ends.
fn sample(s: &[u8], from: usize) -> usize
    requires { from ≤ input_bytes }
    ensures { from < result }
{
    let n = endian::read_u16(s, from) as usize;
    if n <= SAMPLE_LIMIT {
        judge(endian::window(s, from + 2, n));
    }
    from + 2 + n
}

// Every sample of s.
fn samples(s: &[u8])
    requires { length s.now ≤ input_bytes }
{
    let mut at = 0;
    // A `while` in each program: a sample says where the next one begins, and a shared function over a closure would have a `requires`.
    while at < s.len() {
        at = sample(s, at);
    }
}

// Prints the first sectors of a copy's parts.
fn copy_places(c: CopyMap) {
    for n in [c.header, c.block, c.a, c.b, c.reserved] {
        print(number(n));
    }
}

// Prints both copies' places and the data range.
fn print_map(p: DeviceMap) {
    say(b"front");
    copy_places(p.front);
    say(b" back");
    copy_places(p.back);
    say(b" data");
    print(number(p.start));
    print(number(p.end));
    say(b"\n");
}

// Prints the line of a device's places.
fn places(sectors: u64, metadata: u32, reserved: u32) {
    let d = Device {
        sectors,
        metadata,
        reserved,
    };
    say(b"places");
    device(d);
    say(b" ");
    match layout::locate(d) {
        Ok(p) => print_map(p),
        Err(r) => refused(r),
    }
}

// The places of the format's example devices, of the limits and of what lies just past them.
fn devices() {
    places(2097152, 2040, 0);
    places(2097151, 2040, 0);
    places(2097152, 2041, 0);
    places(2097152, 2038, 0);
    places(2097152, 16384, 65536);
    places(2097152, 16384, 65537);
    places(0xFFFF_FFFF_FFFF_FFFF, 2040, 0);
    places(0xFFFF_FFFF_FFFF_FFFF, 16384, 65536);
}

// Prints the line of a refusal number: the number and its words.
fn words(n: u8) {
    print(Text::new().decimal(n as u64));
    say(b" ");
    let w = refusal::words_of(n);
    say(endian::window(&w.bytes, 0, w.used));
    say(b"\n");
}

// Prints the lines of the refusal numbers, and of some that the table does not have.
fn all_words() {
    for n in 0..=30 {
        words(n);
    }
    words(255);
}

fn main() {
    let input = sampling::fetch();
    samples(&input.bytes[..input.used]);
    devices();
    all_words();
}
