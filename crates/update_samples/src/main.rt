// Runs updates of two copies through the library and prints what came of each: its refusal number, or how many stores it
// has and for each store its number, group, sector and the checksum of its bytes; then what the store after the last is
// refused with, and stores with a record of no bytes and of one byte too many. Standard input has the front copy, the back
// copy, and the updates: seconds in 8 bytes, nanoseconds in 4, the record's length in 2, then the record. At the end the last
// update runs again with a byte of the back copy's record changed, and with a front copy that is a byte short; then a record
// is laid into the front copy. What must be printed is the file stdout; samples/updates.py makes both and shares nothing with
// the library. That the program is safe and ends is proved; that it prints the right thing is tested. Assumes what `io` and
// `libc` do.
#![tactic(auto)]

ghost use Rattle.std.specs.Prelude.{◌≤◌, ◌<◌, length};
ghost use Rattle.sampling.specs.Laying.{input_bytes};

use block::Time;
use discovery::Copies;
use layout::Area;
use refusal::{Reason, Refusal};
use sampling::{number, print, refusal, say, sum};
use update::Plan;

// Where area b of the back copy begins, which is the last in a dump.
const BACK_B: usize = layout::DUMP_BYTES - layout::RECORD_LIMIT as usize;

// Prints a refusal and ends the line.
fn refused(r: Reason) {
    print(refusal(Refusal::from(r)));
    say(b"\n");
}

// Prints a store.
fn print_store(p: Plan, c: Copies<'_>, r: &[u8], i: u64) {
    let mut out = [0xEEu8; layout::SECTOR_BYTES];
    match update::store(p, c, r, i, &mut out) {
        Err(r) => refused(r),
        Ok(sector) => {
            say(b"store");
            print(number(i));
            print(number(update::group(p, i) as u64));
            print(number(sector));
            print(sum(&out));
            say(b"\n");
        }
    }
}

// Prints how many stores there are.
fn print_count(n: u64) {
    say(b"stores");
    print(number(n));
    say(b"\n");
}

// Prints the stores of a plan, and what comes after the last.
fn print_plan(p: Plan, c: Copies<'_>, r: &[u8]) {
    let n = update::count(p);
    print_count(n);
    for i in 0..=n {
        print_store(p, c, r, i);
    }
}

// Prints what stores with a record of a length that is not allowed are refused with: past the last store, and the first.
fn print_lengths(p: Plan, c: Copies<'_>) {
    print_store(p, c, b"", update::count(p));
    let long = endian::window(c.front, 0, layout::RECORD_LIMIT as usize + 1);
    print_store(p, c, long, 0);
}

// Prints an update.
fn judge(c: Copies<'_>, t: Time, r: &[u8]) {
    match update::work_out(c, t, r) {
        Err(why) => refused(why),
        Ok(p) => {
            print_plan(p, c, r);
            print_lengths(p, c);
        }
    }
}

// The update at `from` of s, with a front copy of n bytes; answers where the update ends.
fn sample(s: &[u8], from: usize, n: usize) -> usize
    requires { from ≤ input_bytes }
    ensures { from < result }
{
    let t = Time {
        seconds: endian::read_u64(s, from),
        nanoseconds: endian::read_u32(s, from + 8),
    };
    let k = endian::read_u16(s, from + 12) as usize;
    let c = Copies {
        front: endian::window(s, 0, n),
        back: endian::window(s, layout::COPY_BYTES, layout::COPY_BYTES),
    };
    judge(c, t, endian::window(s, from + 14, k));
    from + 14 + k
}

// Every update of s; answers where the last one begins.
fn samples(s: &[u8]) -> usize
    requires { length s.now ≤ input_bytes }
    ensures { result ≤ input_bytes }
{
    let mut last = 0;
    let mut at = layout::DUMP_BYTES;
    // A `while` in each program: a sample says where the next one begins, and a shared function over a closure would have a `requires`.
    while at < s.len() {
        last = at;
        at = sample(s, at, layout::COPY_BYTES);
    }
    last
}

// Lays a record into area b of the copy in the first n bytes of s, and prints the number of the refusal, 0 for none, and the checksum of the copy.
fn laid(s: &mut [u8], n: usize, r: &[u8]) {
    if let Some(c) = s.get_mut(..n) {
        let laid = stores::lay(c, Area::B, r).map_or_else(Refusal::from, |_| refusal::plain(0));
        say(b"laid");
        print(number(laid.number as u64));
        print(sum(c));
        say(b"\n");
    }
}

fn main() {
    let copy = layout::COPY_BYTES;
    let input = sampling::fetch();
    let mut bytes = input.bytes;
    let last = samples(&bytes[..input.used]);
    sample(&bytes, last, copy - 1);
    endian::put(&mut bytes, BACK_B, b"\x07");
    sample(&bytes, last, copy);
    laid(&mut bytes, copy, b"touch");
    laid(&mut bytes, copy, b"");
    laid(&mut bytes, copy - 1, b"touch");
}
