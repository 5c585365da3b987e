// Runs the published check values of the checksum, and the little-endian calls at their edges, and prints what it found,
// a line each. The file stdout beside src/ has what must be printed; samples/values.py makes it and shares nothing with the
// library. Assumes what `io` and `libc` do.
#![tactic(auto)]

use sampling::{long_hex, print, say, short_hex};
use text::Text;

// Prints a value, then a name and the line's end.
fn line(value: Text, name: &[u8]) {
    print(value);
    say(b" ");
    say(name);
    say(b"\n");
}

// Prints the checksum of s.
fn checked(s: &[u8], name: &[u8]) {
    line(short_hex(checksum::checksum(s)), name);
}

// 32 bytes that begin with first, each the one before it plus step.
fn run(first: u8, step: u8) -> [u8; 32] {
    let mut s = [0u8; 32];
    let mut x = first;
    for b in &mut s {
        *b = x;
        x = x.wrapping_add(step);
    }
    s
}

// Prints the checksum of s in two pieces, once for each place where it can be cut.
fn cuts(s: &[u8], name: &[u8]) {
    for i in 0..=s.len() {
        let (front, back) = s.split_at(i);
        line(
            short_hex(checksum::continued(checksum::checksum(front), back)),
            name,
        );
    }
}

// The checksum's check values.
fn checksums() {
    checked(b"", b"the empty string");
    checked(b"a", b"a");
    checked(b"abc", b"abc");
    checked(b"123456789", b"123456789");
    checked(b"message digest", b"message digest");
    checked(
        b"The quick brown fox jumps over the lazy dog",
        b"The quick brown fox jumps over the lazy dog",
    );
    checked(&run(0, 0), b"32 bytes of 0x00");
    checked(&run(255, 0), b"32 bytes of 0xff");
    checked(&run(0, 1), b"32 bytes ascending from 0x00");
    checked(&run(31, 255), b"32 bytes descending to 0x00");
    checked(
        b"\x01\xc0\0\0\0\0\0\0\0\0\0\0\0\0\0\0\x14\0\0\0\0\0\x04\0\0\0\0\x14\0\0\0\x18\x28\0\0\0\0\0\0\0\x02\0\0\0\0\0\0\0",
        b"a read command of 48 bytes",
    );
    cuts(b"123456789", b"123456789 in two pieces");
}

// Prints the numbers of 2, 4 and 8 bytes at `at` of ten bytes 0x01 to 0x0a.
fn read(at: usize) {
    let s = b"\x01\x02\x03\x04\x05\x06\x07\x08\x09\x0a";
    line(short_hex(endian::read_u16(s, at) as u32), b"2 bytes read");
    line(short_hex(endian::read_u32(s, at)), b"4 bytes read");
    line(long_hex(endian::read_u64(s, at)), b"8 bytes read");
}

// Prints whether a write of 4 bytes at `at` of ten zeros has no room, 1 for yes, and the first and the last 8 of the ten afterwards.
fn write(at: usize) {
    let mut s = [0u8; 10];
    line(
        short_hex(!endian::write_u32(&mut s, at, 0x0403_0201) as u32),
        b"answered",
    );
    line(
        long_hex(endian::read_u64(&s, 0)),
        b"first 8 of 10 bytes after a write of 4",
    );
    line(
        long_hex(endian::read_u64(&s, 2)),
        b"last 8 of 10 bytes after a write of 4",
    );
}

// The little-endian calls inside a slice, at its end, past it and at the largest offset.
fn numbers() {
    for at in [0, 2, 9, 10, usize::MAX] {
        read(at);
    }
    for at in [0, 6, 7, usize::MAX] {
        write(at);
    }
}

fn main() {
    checksums();
    numbers();
}
