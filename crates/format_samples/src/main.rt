// Formats copies through the library and prints what came of each: its number with what stands beside it, the checksums of the front and the back
// copy afterwards, and the dump program's line for them. Standard input has the samples, packed by samples/formats.py.
// Before each sample the copies hold bytes of the input. What must be printed is the file stdout; that script makes both
// and shares nothing with the library. That the program is safe and ends is proved; that it prints the right thing is
// tested. Assumes what `io` and `libc` do.
#![tactic(auto)]

ghost use Rattle.std.specs.Prelude.{◌≤◌, ◌<◌, length};
ghost use Rattle.sampling.specs.Laying.{input_bytes};

use block::Time;
use discovery::Copies;
use layout::Device;
use refusal::Refusal;
use sampling::{beside, print, say, sum};
use text::Text;

// Prints the number, what stands beside it, the two checksums and the line.
fn print_line(r: Refusal, c: Copies<'_>) {
    print(Text::new().decimal(r.number as u64));
    print(beside(r));
    print(sum(c.front));
    print(sum(c.back));
    say(b" ");
    let mut line = [0u8; dump_line::LINE_BYTES];
    if let Ok(k) = dump_line::line(c, &mut line) {
        say(endian::window(&line, 0, k));
    }
}

// Runs the sample at `from` of s, with copies that hold bytes of s before it, and answers where the sample ends.
fn sample(s: &[u8], from: usize) -> usize
    requires { from ≤ input_bytes }
    ensures { from < result }
{
    let n = endian::read_u16(s, from) as usize;
    let m = endian::read_u16(s, from + 2) as usize;
    let device = Device {
        sectors: endian::read_u64(s, from + 4),
        metadata: endian::read_u32(s, from + 12),
        reserved: endian::read_u32(s, from + 16),
    };
    let time = Time {
        seconds: endian::read_u64(s, from + 20),
        nanoseconds: endian::read_u32(s, from + 28),
    };
    let p = endian::read_u16(s, from + 32) as usize;
    let u = endian::read_u16(s, from + 34) as usize;
    let r = endian::read_u16(s, from + 36) as usize;
    let pool = endian::window(s, from + 38, p);
    let blockdev = endian::window(s, from + 38 + p, u);
    let record = endian::window(s, from + 38 + p + u, r);
    let mut front = io::large_buffer();
    endian::put(&mut front, 0, s);
    let mut back = io::large_buffer();
    endian::put(&mut back, 0, endian::window(s, 7, s.len()));
    if let (Some(f), Some(b)) = (front.get_mut(..n), back.get_mut(..m)) {
        let a = format::format_copies(f, b, device, pool, blockdev, time, record);
        let c = Copies { front: f, back: b };
        print_line(a.map_or_else(Refusal::from, |_| refusal::plain(0)), c);
    }
    from + 38 + p + u + r
}

// Every sample of s.
fn samples(s: &[u8])
    requires { length s.now ≤ input_bytes }
{
    let mut at = 0;
    // A `while` in each program: a sample says where the next one begins, and a shared function over a closure would have a `requires`.
    while at < s.len() {
        at = sample(s, at);
    }
}

fn main() {
    let input = sampling::fetch();
    samples(&input.bytes[..input.used]);
}
