// Runs the format's printed record, its examples 9 to 11, and records and requests that are refused, and prints a line
// each. The file stdout beside src/ has what must be printed; samples/records.py makes it and shares nothing with the library.
// Assumes what `io` and `libc` do.
#![tactic(auto)]

ghost use Rattle.std.specs.Prelude.{◌≤◌};

use items::Head;
use layout::Device;
use refusal::{Reason, Refusal};
use runs::Run;
use sampling::{beside, number, one, print, put_segment, refusal, say, two};

// The bytes of a record with as many segments as it can have.
const FULL: usize = items::HEAD_BYTES + items::ITEM_BYTES * items::MOST_SEGMENTS;

// The bytes of a record with four segments.
const FOUR: usize = items::HEAD_BYTES + 4 * items::ITEM_BYTES;

// Prints a name.
fn name(s: &[u8]) {
    say(s);
    say(b":");
}

// Prints a number in 16 digits after a blank.
fn hex(n: u64) {
    say(b" ");
    print(sampling::long_hex(n));
}

// Prints numbers.
fn numbers(all: &[u64]) {
    for n in all {
        print(number(*n));
    }
}

// Ends a line.
fn end() {
    say(b"\n");
}

// Prints what a call answers, its value or why it refuses, and ends the line.
// Not shared by the sample programs: a public function over a closure would have a `requires`.
fn answer<T, F: FnOnce(T)>(a: Result<T, Reason>, show: F)
    requires { F.IsAlwaysCallable show }
{
    match a {
        Ok(value) => show(value),
        Err(r) => {
            say(b" ");
            print(refusal(Refusal::from(r)));
        }
    }
    end();
}

// The refusal in an answer, with the number 0 where there is none.
fn refusal_in(a: Result<(), Reason>) -> Refusal {
    a.map_or_else(Refusal::from, |_| refusal::plain(0))
}

// The example device.
fn device() -> Device {
    Device {
        sectors: 2097152,
        metadata: 2040,
        reserved: 0,
    }
}

// Prints the number that a record gives on a device, and what stands beside it.
fn check_on(what: &[u8], d: Device, s: &[u8]) {
    name(what);
    let r = refusal_in(record::check(d, s));
    print(number(r.number as u64));
    print(beside(r));
    end();
}

// Prints the number that a record gives on the example device.
fn check(what: &[u8], s: &[u8]) {
    check_on(what, device(), s);
}

// Prints the head's block size.
fn head(s: &[u8]) {
    name(b"block size");
    answer(
        record::read_head(device(), s),
        |h| numbers(&[items::block_size(h) as u64]),
    );
}

// Prints the number of segments.
fn count(s: &[u8]) {
    name(b"segments");
    answer(record::read_count(device(), s), |n| numbers(&[n as u64]));
}

// Prints the segment at a position: kind, start, sectors.
fn segment(s: &[u8], position: usize) {
    name(b"segment");
    print(number(position as u64));
    answer(record::read_segment(device(), s, position), |g| {
        numbers(&[g.kind as u64, g.start, g.sectors]);
    });
}

// Prints a run's start and sectors.
fn run(a: Result<Run, Reason>) {
    answer(a, |r| numbers(&[r.start, r.sectors]));
}

// Prints run number k.
fn run_at(s: &[u8], k: u64) {
    name(b"run");
    print(number(k));
    run(allocation::run_at(device(), s, k));
}

// Prints the number of free runs, and the free total.
fn free(s: &[u8]) {
    name(b"free runs");
    answer(allocation::count_runs(device(), s), |n| numbers(&[n]));
    name(b"free total");
    answer(allocation::free_total(device(), s), |n| numbers(&[n]));
}

// Prints the first run for m sectors.
fn fit(s: &[u8], m: u64) {
    name(b"first fit for");
    print(number(m));
    run(allocation::first_fit(device(), s, m));
}

// Prints what an allocation of m sectors into out answers.
fn allocate(s: &[u8], kind: u16, m: u64, out: &mut [u8]) {
    name(b"allocated");
    answer(allocation::allocate(device(), s, kind, m, out), |a| {
        numbers(&[a.start, a.length as u64]);
    });
}

// Prints what a release into out answers.
fn release(s: &[u8], position: usize, out: &mut [u8]) {
    name(b"released");
    answer(
        allocation::release(device(), s, position, out),
        |n| numbers(&[n as u64]),
    );
}

// The printed record, and the same bytes made.
fn printed() {
    let s =
        b"\x08\x00\x10\x00\x80\x00\x00\x00\x14\x00\x02\x00\x00\x08\x00\x00\x00\x00\x00\x00\x64\x00\x00\x00\x00\x00\x00\x00";
    check(b"printed record", s);
    head(s);
    count(s);
    segment(s, 0);
    segment(s, 1);
    let made = one(2, 2048, 100);
    name(b"made");
    for at in [0, 8, 16, 24] {
        hex(endian::read_u64(&made, at));
    }
    end();
}

// Examples 9 and 10.
fn example() {
    let s = two(2048, 100, 3000, 50);
    check(b"example 9", &s);
    free(&s);
    for k in [0, 1, 2, u64::MAX] {
        run_at(&s, k);
    }
    for m in [852, 853, 2092054, 2092055, 0] {
        fit(&s, m);
    }
}

// Prints a new record of n bytes at the start of s: its number, two segments, its free room.
fn shown(s: &[u8], n: usize, first: usize, second: usize) {
    let r = endian::window(s, 0, n);
    check(b"new record", r);
    segment(r, first);
    segment(r, second);
    free(r);
    run_at(r, 0);
    run_at(r, 1);
}

// An allocation of m sectors, into 70 bytes.
fn allocate_and_show(s: &[u8], kind: u16, m: u64) {
    let mut out = [0u8; 70];
    allocate(s, kind, m, &mut out);
    shown(&out, 68, 1, 2);
}

// A release, into 48 bytes.
fn release_and_show(s: &[u8], position: usize) {
    let mut out = [0u8; 48];
    release(s, position, &mut out);
    shown(&out, 28, 0, 1);
}

// An allocation and a release on example 9's record.
fn changes() {
    let s = two(2048, 100, 3000, 50);
    allocate_and_show(&s, 4, 853);
    allocate_and_show(&s, 1, 852);
    release_and_show(&s, 0);
    release_and_show(&s, 1);
}

// An allocation that is refused, into 70 bytes.
fn refuse(s: &[u8], kind: u16, m: u64) {
    let mut out = [7u8; 70];
    allocate(s, kind, m, &mut out);
    name(b"two bytes left");
    print(number(endian::read_u16(&out, 0) as u64));
    end();
}

// The same into 67 bytes, and a release into 27.
fn refuse_small(s: &[u8]) {
    allocate(s, 1, 1, &mut [7; 67]);
    release(s, 0, &mut [7; 27]);
}

// A release of a segment that is not there.
fn refuse_release(s: &[u8]) {
    release(s, 2, &mut [0; 70]);
}

// Prints the number that the begin of a record in out gives.
fn begin(what: &[u8], size: u32, out: &mut [u8]) {
    name(what);
    let r = refusal_in(items::begin(out, Head::Plain(size)));
    print(number(r.number as u64));
    end();
}

// Heads that are refused.
fn heads() {
    begin(b"begin with 64", 64, &mut [0; 8]);
    begin(b"begin with 2097280", 2097280, &mut [0; 8]);
    begin(b"begin in 7 bytes", 128, &mut [0; 7]);
}

// Requests that are refused.
fn requests() {
    let s = two(2048, 100, 3000, 50);
    refuse(&s, 0, 1);
    refuse(&s, 5, 0);
    refuse(&s, 16, 1);
    refuse(&s, 1, 0);
    refuse(&s, 1, 2092055);
    refuse(&s, 1, u64::MAX);
    refuse_small(&s);
    refuse_release(&s);
    heads();
}

// Begins a record in out, and writes n segments of one sector each.
fn ones(out: &mut [u8], n: usize)
    requires { n ≤ 1000 }
{
    let _ = items::begin(out, Head::Plain(128));
    for i in 0..n {
        put_segment(out, i, 3, 2048 + i as u64, 1);
    }
}

// A record of 409 segments takes none more; one of 410 is too long.
fn full() {
    let mut s = io::large_buffer();
    ones(&mut s, items::MOST_SEGMENTS + 1);
    let most = endian::window(&s, 0, FULL);
    check(b"409 segments", most);
    count(most);
    allocate(most, 1, 1, &mut [0; 70]);
    check(
        b"410 segments",
        endian::window(&s, 0, FULL + items::ITEM_BYTES),
    );
}

// 409 segments that fill the data range to its last sector: no free room, and no place for one more.
fn full_range() {
    let mut s = io::large_buffer();
    let last = items::MOST_SEGMENTS - 1;
    ones(&mut s, last);
    put_segment(&mut s, last, 3, 2456, 2092648);
    let r = endian::window(&s, 0, FULL);
    check(b"409 segments to the last sector", r);
    free(r);
    fit(r, 1);
    run_at(r, 0);
}

// Prints what every call answers on a record.
fn every_call(what: &[u8], s: &[u8]) {
    check(what, s);
    head(s);
    count(s);
    segment(s, 0);
    segment(s, 4);
    free(s);
    run_at(s, 0);
    fit(s, 1);
    fit(s, 0);
    refuse(s, 1, 1);
    refuse(s, 5, 0);
    refuse_release(s);
    handed_some(s, 0);
    handed_none(s, 1);
}

// A record with four data segments, each a start and its sectors.
fn four(places: [(u64, u64); 4]) -> [u8; FOUR] {
    let mut s = [0u8; FOUR];
    let _ = items::begin(&mut s, Head::Plain(128));
    for (i, (start, sectors)) in places.iter().enumerate() {
        put_segment(&mut s, i, 2, *start, *sectors);
    }
    s
}

// Two pairs that clash: 0 and 2, 1 and 3.
fn two_pairs() {
    every_call(
        b"0 and 2, 1 and 3",
        &four([(2048, 100), (3000, 50), (2147, 1), (3049, 10)]),
    );
}

// Pairs that clash in other places.
fn clashes() {
    check(
        b"1 and 2, 1 and 3",
        &four([(5000, 10), (3000, 50), (3049, 10), (3010, 1)]),
    );
    check(
        b"1 and 3, 2 and 3",
        &four([(5000, 10), (3049, 10), (3010, 1), (3000, 50)]),
    );
    check(
        b"0 and 1, 1 and 3, 2 and 3",
        &four([(3058, 2), (3049, 10), (3010, 1), (3000, 50)]),
    );
    check(
        b"1 and 3, 2 and 3 beside one that touches",
        &four([(3059, 2), (3049, 9), (3010, 1), (3000, 50)]),
    );
    check(
        b"1 and 3 beside an empty one",
        &four([(3059, 2), (3049, 9), (3010, 0), (3000, 50)]),
    );
    check(b"the same twice", &two(2048, 100, 2048, 100));
}

// Of 409 segments the last two clash.
fn last_two() {
    let mut s = io::large_buffer();
    let last = items::MOST_SEGMENTS - 1;
    ones(&mut s, last);
    put_segment(&mut s, last, 2, 2455, 2);
    check(b"the last two of 409", endian::window(&s, 0, FULL));
    put_segment(&mut s, last, 2, 2048, 1);
    check(
        b"the first and the last of 409",
        endian::window(&s, 0, FULL),
    );
}

// Prints how many segments a table took; 100 and the number, with what stands beside it, where that is refused.
fn taken(a: Result<usize, Reason>) {
    match a {
        Ok(n) => {
            print(number(n as u64));
        }
        Err(reason) => {
            let r = Refusal::from(reason);
            print(number(r.number as u64 + 100));
            print(beside(r));
        }
    }
}

// Prints how many segments from a position on a table takes, and the table.
fn handed(what: &[u8], s: &[u8], position: usize, table: &mut [u64]) {
    let a = record::read_segments(device(), s, position, table);
    name(what);
    print(number(position as u64));
    taken(a);
    numbers(table);
    end();
}

// The same for a table of seven numbers, and for one with room for no segment.
fn handed_some(s: &[u8], position: usize) {
    handed(b"segments from", s, position, &mut [9; 7]);
}

fn handed_none(s: &[u8], position: usize) {
    handed(b"no room from", s, position, &mut [9; 2]);
}

// Segments from a position on.
fn handing() {
    let s = two(2048, 100, 3000, 50);
    for position in [0, 1, 2, usize::MAX] {
        handed_some(&s, position);
    }
    handed_some(&two(2048, 100, 2147, 1), 0);
    handed_none(&s, 1);
    handed_none(&s, 2);
}

// Prints the number of the record with one segment after two of its bytes are changed.
fn changed(what: &[u8], at: usize, v: u16) {
    let mut s = one(2, 2048, 100);
    endian::write_u16(&mut s, at, v);
    check(what, &s);
}

// Records that are not well formed.
fn forms() {
    changed(b"a head of 7 bytes", 0, 7);
    changed(b"a head of 9 bytes", 0, 9);
    changed(b"kind 17 in 8 bytes", 2, 17);
    changed(b"a head of kind 18", 2, 18);
    changed(b"block size 0", 4, 0);
    changed(b"block size 64", 4, 64);
    changed(b"block size 129", 4, 129);
    changed(b"block size 2097280", 6, 32);
    changed(b"a segment of 19 bytes", 8, 19);
    changed(b"a segment of 21 bytes", 8, 21);
    changed(b"kind 65535", 10, 65535);
    let s = two(2048, 100, 3000, 50);
    check(b"a byte after it", endian::window(&s, 0, 29));
    check(b"19 bytes after it", endian::window(&s, 0, 47));
}

// Prints the number of a record with two data segments.
fn pair(what: &[u8], start: u64, sectors: u64, start2: u64, sectors2: u64) {
    check(what, &two(start, sectors, start2, sectors2));
}

// Prints the number of a record with one segment.
fn single(what: &[u8], kind: u16, start: u64, sectors: u64) {
    check(what, &one(kind, start, sectors));
}

// Example 11, and records that are refused.
fn records() {
    pair(b"example 11", 2048, 100, 2147, 1);
    pair(b"with 2148", 2048, 100, 2148, 1);
    pair(b"the later one first", 2148, 1, 2048, 101);
    single(b"kind 0", 0, 2048, 100);
    single(b"kind 1", 1, 2048, 100);
    single(b"kind 4", 4, 2048, 100);
    single(b"kind 5", 5, 2048, 100);
    single(b"kind 16", 16, 2048, 100);
}

// Segments at the edges of the data range.
fn ranges() {
    single(b"below the data range", 2, 2047, 100);
    single(b"no sectors", 2, 2048, 0);
    single(b"the last data sector", 2, 2095103, 1);
    single(b"one past it", 2, 2095103, 2);
    single(b"past the data range", 2, 2095104, 1);
    single(b"the whole data range", 3, 2048, 2093056);
    single(b"a sum that wraps", 2, u64::MAX, u64::MAX);
    single(b"a sum that wraps into the range", 2, 4096, u64::MAX);
}

// Records that are cut short.
fn parts() {
    let s = one(2, 2048, 100);
    check(b"no bytes", endian::window(&s, 0, 0));
    check(b"seven bytes", endian::window(&s, 0, 7));
    check(b"a head", endian::window(&s, 0, 8));
    check(b"a segment cut", endian::window(&s, 0, 27));
    check(b"a segment", &s);
}

// Prints the number of a record on a device with these numbers.
fn on(what: &[u8], sectors: u64, metadata: u32, reserved: u32, s: &[u8]) {
    let d = Device {
        sectors,
        metadata,
        reserved,
    };
    check_on(what, d, s);
}

// Device numbers that are refused.
fn devices() {
    let s = one(2, 200000, 100);
    on(b"S 2097151", 2097151, 2041, 65537, &s);
    on(b"L 2041", 2097152, 2041, 65537, &s);
    on(b"R 65537", 2097152, 2040, 65537, b"");
    on(b"L 16384 and R 65536", 2097152, 16384, 65536, &s);
}

fn main() {
    printed();
    example();
    changes();
    requests();
    full();
    full_range();
    forms();
    records();
    ranges();
    parts();
    devices();
    two_pairs();
    clashes();
    last_two();
    handing();
}
