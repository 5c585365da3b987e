// Mends pairs of copies and prints for each its name; what `mend::work_out` answers: a refusal, in step, or the number of
// stores; each store: its number, its group, its sector, the checksum of its bytes and whether a flush belongs after it; and
// what the store after the last is refused with. Each store is applied to the copies before the next one is asked for. Then it
// prints the dump program's line for the mended copies, whether they are in step, the checksums of the front and the back, and
// what `mend::work_out` answers now. At the end stores of the last pair are asked for with too few and too many bytes, and five
// plans that nobody worked out have their stores printed. Standard input has the samples, packed by samples/mends.py. What must
// be printed is the file stdout; that script makes both and shares nothing with the library. That the program is safe and ends
// is proved; that it prints the right thing is tested. Assumes what `io` and `libc` do.
#![tactic(auto)]

ghost use Rattle.std.specs.Prelude.{◌≤◌, ◌<◌, length};
ghost use Rattle.sampling.specs.Laying.{input_bytes};

use discovery::Copies;
use layout::{Area, Device, Side};
use mend::Rewrite;
use refusal::{Reason, Refusal};
use sampling::{number, print, say, sum};

// What `mend::work_out` answers.
type Mending = Result<Option<Rewrite>, Reason>;

// The bytes of a copy: in a pair the front is from byte 0 on and the back from here on.
const COPY: usize = layout::COPY_BYTES;

// Where the areas begin in a copy.
const A_OFFSET: usize = layout::HEADER_BYTES;

const B_OFFSET: usize = A_OFFSET + layout::RECORD_LIMIT as usize;

// The sectors of an area in a copy.
const AREA_SECTORS: u64 = layout::RECORD_LIMIT / layout::SECTOR_BYTES as u64;

// The low byte of L in the front's block.
const METADATA: usize = layout::BLOCK_OFFSET + 160;

// How many bytes of a pair's front and of its back copy are lent.
#[derive(Clone, Copy)]
struct Lengths {
    front: usize,
    back: usize,
}

impl Lengths {
    // The copies of a pair.
    fn lent(self, pair: &[u8]) -> Copies<'_> {
        Copies {
            front: endian::window(pair, 0, self.front),
            back: endian::window(pair, COPY, self.back),
        }
    }
}

// Two whole copies.
const WHOLE: Lengths = Lengths {
    front: COPY,
    back: COPY,
};

// Prints what there is to do.
fn print_answer(m: Mending) {
    match m {
        Ok(None) => {
            say(b"in step");
        }
        Ok(Some(_)) => {
            say(b"stores");
            print(number(mend::count(m)));
        }
        Err(r) => {
            say(b"refused");
            print(number(Refusal::from(r).number as u64));
        }
    }
    say(b"\n");
}

// Where a sector lies in a run of n sectors that begins with sector `first` and, in a pair, at byte `at`.
fn place_in_run(sector: u64, first: u64, n: u64, at: usize) -> Option<usize>
    requires n_bound { n ≤ 1000 }
    requires at_bound { at ≤ 1000000 }
{
    let i = sector.checked_sub(first)?;
    if i < n {
        Some(at + layout::SECTOR_BYTES * i as usize)
    } else {
        None
    }
}

// Where a sector of a device lies in one copy, which begins at byte `at` of a pair.
fn place_in_copy(sector: u64, w: Side, d: Device, at: usize) -> Option<usize>
    requires { at ≤ 100000 }
{
    let block = layout::block_sector(w, d);
    let a = layout::area_sector(w, Area::A, d);
    let b = layout::area_sector(w, Area::B, d);
    place_in_run(sector, block, 1, at + layout::BLOCK_OFFSET)
        .or(place_in_run(sector, a, AREA_SECTORS, at + A_OFFSET))
        .or(place_in_run(sector, b, AREA_SECTORS, at + B_OFFSET))
}

// Where a sector of a device lies in a pair.
fn place(sector: u64, d: Device) -> Option<usize> {
    place_in_copy(sector, Side::Front, d, 0).or(place_in_copy(sector, Side::Back, d, COPY))
}

// The device numbers that a mend stores with; zeros where it stores nothing.
fn kept_device(m: Mending, c: Copies<'_>) -> Device {
    let Ok(Some(p)) = m else {
        return Device {
            sectors: 0,
            metadata: 0,
            reserved: 0,
        };
    };
    copy::fields_in(c.on(p.kept)).device
}

// Prints the sector of a store, or what it is refused with, and answers where it lies in a pair.
fn print_given(given: Result<u64, Reason>, d: Device) -> Option<usize> {
    match given {
        Err(r) => {
            say(b" refused");
            print(number(Refusal::from(r).number as u64));
            None
        }
        Ok(sector) => {
            print(number(sector));
            let at = place(sector, d);
            if at.is_none() {
                say(b" nowhere");
            }
            at
        }
    }
}

// Prints store i of a mend of the pair e, of a device with the numbers d, and applies it to e.
fn run_store(m: Mending, i: u64, d: Device, n: Lengths, e: &mut [u8]) {
    say(b"store");
    print(number(i));
    print(number(mend::group(m, i) as u64));
    let mut out = [0xEEu8; layout::SECTOR_BYTES];
    let c = n.lent(e);
    let given = mend::store(m, c, i, &mut out);
    if let Some(at) = print_given(given, d) {
        endian::put(e, at, &out);
    }
    print(sum(&out));
    if mend::flush(m, i) {
        say(b" flush");
    }
    say(b"\n");
}

// Prints all stores of a mend of the pair e and applies them to it; then what comes after the last.
fn run_stores(m: Mending, n: Lengths, e: &mut [u8]) {
    let d = kept_device(m, n.lent(e));
    for i in 0..=mend::count(m) {
        run_store(m, i, d, n, e);
    }
}

// Prints the dump's line for two copies.
fn print_line(c: Copies<'_>) {
    let mut line = [0u8; dump_line::LINE_BYTES];
    if let Ok(k) = dump_line::line(c, &mut line) {
        say(endian::window(&line, 0, k));
    }
}

// Prints what a mend has left.
fn print_copies(c: Copies<'_>) {
    print_line(c);
    say(if discovery::examine(c).step {
        b"copies in step"
    } else {
        b"copies not in step"
    });
    print(sum(c.front));
    print(sum(c.back));
    say(b"\n");
    print_answer(mend::work_out(c));
}

// Mends the pair e.
fn mend_pair(n: Lengths, e: &mut [u8]) {
    let c = n.lent(e);
    let m = mend::work_out(c);
    print_answer(m);
    run_stores(m, n, e);
    print_copies(n.lent(e));
}

// Runs the sample at `from` of s and answers where the sample ends. The pair is made in d.
fn sample(s: &[u8], from: usize, d: &mut [u8]) -> usize
    requires { from ≤ input_bytes }
    ensures { from < result }
{
    let name = endian::read_u16(s, from) as usize;
    say(endian::window(s, from + 2, name));
    say(b"\n");
    let at = from + 2 + name;
    let n = Lengths {
        front: endian::read_u16(s, at) as usize,
        back: endian::read_u16(s, at + 2) as usize,
    };
    endian::clear(d);
    let end = sampling::patch(s, at + 6, endian::read_u16(s, at + 4), d);
    let mut e = io::large_buffer();
    endian::put(&mut e, 0, d);
    mend_pair(n, &mut e);
    end
}

// Every sample of s.
fn samples(s: &[u8], d: &mut [u8])
    requires { length s.now ≤ input_bytes }
{
    let mut at = 0;
    // A `while` in each program: a sample says where the next one begins, and a shared function over a closure would have a `requires`.
    while at < s.len() {
        at = sample(s, at, d);
    }
}

// Prints what store i of a mend is refused with where out is lent for it.
fn lend(m: Mending, c: Copies<'_>, i: u64, out: &mut [u8]) {
    say(b"lent");
    print(number(out.len() as u64));
    say(b" for");
    print(number(i));
    print_given(mend::store(m, c, i, out), kept_device(m, c));
    print(sum(out));
    say(b"\n");
}

// The same with one byte, one too few and one too many.
fn lend_odd(m: Mending, c: Copies<'_>, i: u64) {
    lend(m, c, i, &mut [0xEE; 1]);
    lend(m, c, i, &mut [0xEE; layout::SECTOR_BYTES - 1]);
    lend(m, c, i, &mut [0xEE; layout::SECTOR_BYTES + 1]);
}

// Prints the stores of a plan that nobody worked out, for the pair d with another low byte of L in the front's block.
fn run_made_up(kept: Side, area: Area, bytes: u32, last: bool, low: u8, d: &[u8]) {
    let m = Ok(Some(Rewrite {
        kept,
        area,
        bytes,
        last,
    }));
    let mut e = io::large_buffer();
    endian::put(&mut e, 0, d);
    endian::put(&mut e, METADATA, &[low]);
    print_answer(m);
    run_stores(m, WHOLE, &mut e);
}

// Such plans: a last store that is not needed; the older record; a length that is not the entry's; an area with no record; a kept
// block with an odd L.
fn run_all_made_up(d: &[u8]) {
    run_made_up(Side::Front, Area::B, 800, true, 0xF8, d);
    run_made_up(Side::Back, Area::A, 28, false, 0xF8, d);
    run_made_up(Side::Front, Area::B, 799, false, 0xF8, d);
    run_made_up(Side::Front, Area::A, 800, false, 0xF8, d);
    run_made_up(Side::Front, Area::B, 800, false, 0xF9, d);
}

// The calls that no sample makes, with the pair d.
fn odd_calls(d: &[u8]) {
    let c = WHOLE.lent(d);
    let m = mend::work_out(c);
    for i in [0, 1, 99] {
        lend_odd(m, c, i);
    }
    lend_odd(Ok(None), c, 0);
    lend_odd(Err(Reason::NoBlock), c, 0);
    run_all_made_up(d);
}

fn main() {
    let input = sampling::fetch();
    let mut before = io::large_buffer();
    samples(&input.bytes[..input.used], &mut before);
    odd_calls(&before);
}
