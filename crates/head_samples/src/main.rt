// Runs records of either head through the library and prints for each what its check gives, its head, what moving the head up and back and
// setting its mark give, each with the checksum of the bytes lent for it, what moving up and then back gives, and what beginning a record with either
// head gives. Standard input has the samples: the bytes lent in 2 bytes, a block size in 4, a mark in 4, the record's length in 2, then the record.
// What must be printed is the file stdout; samples/heads.py makes both and shares nothing with the library. That the program is safe and ends is
// proved; that it prints the right thing is tested. Assumes what `io` and `libc` do.
#![tactic(auto)]

ghost use Rattle.std.specs.Prelude.{◌≤◌, ◌<◌, length};
ghost use Rattle.sampling.specs.Laying.{input_bytes};

use heads::Change;
use items::Head;
use layout::Device;
use refusal::{Reason, Refusal};
use sampling::{number, print, refusal, say, sum};

// The example device.
fn device() -> Device {
    Device {
        sectors: 2097152,
        metadata: 2040,
        reserved: 0,
    }
}

// Prints what a call answers: its value, or why it refuses.
// Not shared by the sample programs: a public function over a closure would have a `requires`.
fn answer<T, F: FnOnce(T)>(a: Result<T, Reason>, show: F)
    requires { F.IsAlwaysCallable show }
{
    match a {
        Ok(value) => show(value),
        Err(r) => {
            say(b" ");
            print(refusal(Refusal::from(r)));
        }
    }
}

// Prints the head of a record: its kind, block size and low water mark.
fn head(s: &[u8]) {
    say(b"head");
    answer(record::read_head(device(), s), |h| {
        print(number(items::head_kind(h) as u64));
        print(number(items::block_size(h) as u64));
        print(number(items::low_water(h) as u64));
    });
    say(b"\n");
}

// Lends n bytes, which hold the first of `before`, where a large buffer has so many.
fn lend<F: FnOnce(&mut [u8])>(before: &[u8], n: usize, f: F)
    requires { F.IsAlwaysCallable f }
{
    let mut buffer = io::large_buffer();
    endian::put(&mut buffer, 0, endian::window(before, 0, n));
    if let Some(out) = buffer.get_mut(..n) {
        f(out);
    }
}

// A change of the head of s into such bytes.
fn change(what: &[u8], s: &[u8], c: Change, before: &[u8], n: usize) {
    lend(before, n, |out| {
        say(what);
        answer(heads::rewrite(device(), s, c, out), |k| {
            print(number(k as u64));
        });
        print(sum(out));
        say(b"\n");
    });
}

// Moving up, and back what that gave.
fn there_and_back(s: &[u8], before: &[u8], n: usize) {
    let mut up = io::large_buffer();
    if let Ok(k) = heads::rewrite(device(), s, Change::Up, &mut up) {
        let there = endian::window(&up, 0, k);
        change(b"up and back", there, Change::Back, before, n);
    }
}

// A record begun with a head, in such bytes.
fn begin(h: Head, before: &[u8], n: usize) {
    lend(before, n, |out| {
        let r = items::begin(out, h).map_or_else(Refusal::from, |_| refusal::plain(0));
        say(b"begin");
        print(number(r.number as u64));
        print(sum(out));
        say(b"\n");
    });
}

// The sample at `from` of s; answers where it ends.
fn sample(s: &[u8], from: usize) -> usize
    requires { from ≤ input_bytes }
    ensures { from < result }
{
    let room = endian::read_u16(s, from) as usize;
    let size = endian::read_u32(s, from + 2);
    let mark = endian::read_u32(s, from + 6);
    let k = endian::read_u16(s, from + 10) as usize;
    let r = endian::window(s, from + 12, k);
    head(r);
    change(b"up", r, Change::Up, s, room);
    change(b"back", r, Change::Back, s, room);
    change(b"mark", r, Change::Mark(mark), s, room);
    there_and_back(r, s, room);
    begin(Head::Plain(size), s, room);
    begin(Head::Marked(size, mark), s, room);
    from + 12 + k
}

// Every sample of s.
fn samples(s: &[u8])
    requires { length s.now ≤ input_bytes }
{
    let mut at = 0;
    // A `while` in each program: a sample says where the next one begins, and a shared function over a closure would have a `requires`.
    while at < s.len() {
        at = sample(s, at);
    }
}

fn main() {
    let input = sampling::fetch();
    samples(&input.bytes[..input.used]);
}
