// Fills tables of three entries with the free runs of records, and prints for each what was answered and the three entries
// afterwards. Entry k of a table starts as (7, k). The file stdout beside src/ has what must be printed;
// samples/runs.py makes it and shares nothing with the library. Assumes what `io` and `libc` do.
#![tactic(auto)]

use items::Head;
use refusal::{Reason, Refusal};
use runs::Run;
use sampling::{number, one, print, put_segment, refusal, say, two};

// The bytes of records with three and with four segments.
const THREE_BYTES: usize = items::HEAD_BYTES + 3 * items::ITEM_BYTES;

const FOUR_BYTES: usize = THREE_BYTES + items::ITEM_BYTES;

// Prints a run's start and sectors.
fn run(r: Run) {
    print(number(r.start));
    print(number(r.sectors));
}

// Prints what was answered.
fn answer(a: Result<u64, Reason>) {
    match a {
        Ok(n) => {
            print(number(n));
        }
        Err(r) => {
            say(b" ");
            print(refusal(Refusal::from(r)));
        }
    }
}

// An entry before the call.
fn entry(k: u64) -> Run {
    Run {
        start: 7,
        sectors: k,
    }
}

// Prints a name, what is answered for a record on a device, and the table afterwards.
fn on(what: &[u8], sectors: u64, metadata: u32, reserved: u32, s: &[u8]) {
    let mut table = [entry(0), entry(1), entry(2)];
    let a = allocation::free_runs_of(sectors, metadata, reserved, s, &mut table);
    say(what);
    say(b":");
    answer(a);
    say(b";");
    for r in table {
        run(r);
    }
    say(b"\n");
}

// The same on the example device.
fn show(what: &[u8], s: &[u8]) {
    on(what, 2097152, 2040, 0, s);
}

// The same for a record's first n bytes.
fn cut(what: &[u8], s: &[u8], n: usize) {
    show(what, endian::window(s, 0, n));
}

// A record with data segments, each a start and its sectors.
fn record<const BYTES: usize>(places: &[(u64, u64)]) -> [u8; BYTES] {
    let mut s = [0u8; BYTES];
    let _ = items::begin(&mut s, Head::Plain(128));
    for (i, (start, sectors)) in places.iter().enumerate() {
        put_segment(&mut s, i, 2, *start, *sectors);
    }
    s
}

// A record with three segments of ten sectors.
fn three(start: u64, start2: u64, start3: u64) -> [u8; THREE_BYTES] {
    record(&[(start, 10), (start2, 10), (start3, 10)])
}

// A record with three segments that leave four runs, and a fourth one.
fn four(start: u64, sectors: u64) -> [u8; FOUR_BYTES] {
    record(&[(3000, 10), (4000, 10), (5000, 10), (start, sectors)])
}

// Tables with more room than runs, and with exactly enough.
fn enough() {
    let mut head = [0u8; 8];
    let _ = items::begin(&mut head, Head::Plain(128));
    show(b"no segments", &head);
    show(b"no free sector", &one(2, 2048, 2093056));
    show(b"the first sector free", &one(2, 2049, 2093055));
    show(b"the last sector free", &one(2, 2048, 2093055));
    show(b"example 9", &two(2048, 100, 3000, 50));
    show(b"the later one first", &two(3000, 50, 2048, 100));
    show(b"side by side", &two(2048, 100, 2148, 1));
    show(b"three runs", &two(3000, 50, 4000, 10));
    show(b"three runs, the later one first", &two(4000, 10, 3000, 50));
    show(b"three runs of three segments", &three(2048, 5000, 4000));
}

// Tables with too little room.
fn short() {
    show(b"four runs", &three(3000, 5000, 4000));
    show(
        b"four runs, up to the last sector but one",
        &three(3000, 2095093, 4000),
    );
}

// Device numbers that are refused, and their order.
fn devices() {
    let r = two(3000, 50, 4000, 10);
    on(b"S 2097151, L 2041, R 65537", 2097151, 2041, 65537, &r);
    on(b"L 2041, R 65537", 2097152, 2041, 65537, &r);
    on(b"L 2038", 2097152, 2038, 0, &r);
    on(b"L 16386", 2097152, 16386, 0, &r);
    on(b"R 65537, no bytes", 2097152, 2040, 65537, b"");
}

// Records that are refused.
fn records() {
    show(b"no bytes", b"");
    cut(b"seven bytes", &two(3000, 50, 4000, 10), 7);
    cut(b"a segment cut", &two(3000, 50, 4000, 10), 27);
    show(b"no sectors", &two(3000, 50, 4000, 0));
    show(b"below the data range", &one(2, 2047, 100));
    show(b"past the data range", &one(2, 2095103, 2));
    show(b"a sum that wraps", &one(2, u64::MAX, 2));
    show(b"example 11", &two(2048, 100, 2147, 1));
    show(
        b"three, of which the last two clash",
        &three(2048, 2200, 2209),
    );
}

// The same where the table has too little room too.
fn refused_first() {
    let r = three(3000, 5000, 4000);
    on(b"four runs, S 2097151", 2097151, 2040, 0, &r);
    on(b"four runs, L 2041", 2097152, 2041, 0, &r);
    on(b"four runs, R 65537", 2097152, 2040, 65537, &r);
    cut(b"four runs, a segment cut", &four(5010, 1), 87);
    show(b"four runs, no sectors", &four(3500, 0));
    show(b"four runs, a sector in two segments", &four(5009, 1));
    show(b"four runs, side by side", &four(5010, 1));
}

fn main() {
    enough();
    short();
    devices();
    records();
    refused_first();
    let far = one(2, 200000, 100);
    on(b"L 16384, R 65536", 2097152, 16384, 65536, &far);
}
