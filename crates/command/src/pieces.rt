// The word `receive`: a copy from standard input, or a front and a back one after the other, in whatever pieces the input brings. Each
// goes to `receive` as it came, and no copy is kept. Assumes what `io` and `std` do.
use crate::facts::AreaState;
use crate::say::{ErrorNumber, Printed, TURNS, complain, complain_text, note, print};
use crate::sentences::{AreaName, HoldingWords, Name, RefusalWords, TornWords};
use crate::statuses::Status;
use crate::{copies, facts, say};
use block::BlockFields;
use copy::{CopyReading, Present};
use layout::Area;
use receive::Received;
use refusal::Reason;
use std::fmt;
use std::fmt::Display;
use std::io::{Error, IsTerminal, Read, Stderr, Stdin, Stdout};

// The bytes of a front and a back.
const TWO: usize = 2 * copies::BYTES;

// Why no more of a copy comes: it is whole or the input has ended, or a read failed.
#[derive(Clone, Copy)]
enum End {
    Input,
    Failed(ErrorNumber),
}

// What came of a copy, and why no more of it comes.
#[derive(Clone, Copy)]
struct Coming {
    received: Received,
    end: Option<End>,
}

// How many bytes of a copy came.
#[derive(Clone, Copy)]
struct BytesWords {
    taken: usize,
    name: Name,
}

impl Display for BytesWords {
    fn fmt<W: fmt::Write>(&self, f: &mut fmt::Formatter<W>) -> fmt::Result {
        write!(
            f,
            "{} of the {}'s {} bytes",
            self.taken,
            self.name,
            copies::BYTES
        )
    }
}

// A line on standard error about standard input.
fn tell<T: Display + Drop>(text: T) {
    note(b"standard input", text);
}

// A refusal, on standard error; its status.
fn refuse(n: Reason) -> Status {
    facts::refuse(b"standard input", n)
}

impl Coming {
    fn is_whole(self) -> bool {
        self.received.taken == copies::BYTES
    }

    // The error of the read that failed.
    fn failure(self) -> Option<ErrorNumber> {
        match self.end {
            Some(End::Failed(e)) => Some(e),
            _ => None,
        }
    }

    // How many bytes came.
    fn bytes(self, name: Name) -> BytesWords {
        BytesWords {
            taken: self.received.taken,
            name,
        }
    }

    fn ended(self, end: End) -> Coming {
        Coming {
            end: Some(end),
            ..self
        }
    }

    // What the library says of it.
    fn reading(self) -> Result<CopyReading, Reason> {
        receive::end(self.received)
    }
}

// Nothing came yet.
fn nothing() -> Coming {
    let received = receive::begin();
    Coming {
        received,
        end: None,
    }
}

// Reads n bytes of standard input at the most to the start of out.
fn read_some(input: Stdin, out: &mut [u8], n: usize) -> Result<usize, Error> {
    let mut input = input;
    let n = n.min(out.len());
    input.read(&mut out[..n])
}

// A copy with one more piece, as it came.
fn with_piece(x: Coming, piece: &[u8]) -> Coming {
    match receive::piece(x.received, piece) {
        Ok(received) => Coming {
            received,
            end: if received.taken < copies::BYTES {
                None
            } else {
                Some(End::Input)
            },
        },
        Err(_) => x.ended(End::Input),
    }
}

// One read, and what it brings of a copy. How many bytes came then is said, where it is shown, in place of what that line said before. A
// read that a signal interrupted is tried again.
fn read_piece(input: Stdin, x: Coming, name: Name, shown: bool) -> Coming {
    let mut buffer = io::buffer();
    let missing = copies::BYTES.saturating_sub(x.received.taken);
    match read_some(input, &mut buffer, missing) {
        Ok(0) => x.ended(End::Input),
        Ok(n) => {
            let next = with_piece(x, endian::window(&buffer, 0, n));
            if shown {
                complain_text(format_args!("\r{}", next.bytes(name)));
            }
            next
        }
        Err(e) if say::interrupted(&e) => x,
        Err(e) => x.ended(End::Failed(ErrorNumber::of(&e))),
    }
}

// Reads until a copy is whole, the input ends or a read fails.
fn read_pieces(input: Stdin, name: Name, shown: bool) -> Coming {
    let mut x = nothing();
    // a count, since a read may be interrupted without end
    for _ in 0..TURNS {
        x = read_piece(input, x, name, shown);
        if x.end.is_some() {
            return x;
        }
    }
    x.ended(End::Failed(ErrorNumber::of(&say::given_up())))
}

// The same, and ends the line that says how many bytes came.
fn read_copy(input: Stdin, name: Name, shown: bool) -> Coming {
    let x = read_pieces(input, name, shown);
    if shown && x.received.taken != 0 {
        complain(b"\n");
    }
    x
}

// Reads the back, where its front is whole; else nothing comes of it, for the same reason.
fn read_back(input: Stdin, front: Coming, shown: bool) -> Coming {
    if front.is_whole() {
        return read_copy(input, Name::Back, shown);
    }
    let received = receive::begin();
    Coming {
        received,
        end: front.end,
    }
}

// Prints the present record.
fn print_present(out: Stdout, name: Name, p: Option<Present>) -> Printed {
    match p {
        None => print(out, format_args!("{name} present none\n")),
        Some(p) => {
            let area = AreaName(p.area);
            let holding = HoldingWords(p.holding);
            print(out, format_args!("{name} present {area} {holding}\n"))
        }
    }
}

fn print_unknown(out: Stdout, name: Name) -> Printed {
    print(out, format_args!("{name} present unknown\n"))
}

// An area of a copy whose block is accepted.
fn area_state(f: BlockFields, area: Area, whole: bool) -> AreaState {
    AreaState {
        area,
        entry: copy::entry_in(f, area),
        read: true,
        whole,
    }
}

// Prints what a copy with an accepted block says: whose pool it is, both areas, and its present record.
fn print_accepted(out: Stdout, name: Name, q: CopyReading) -> Printed {
    let f = q.block.fields;
    let found = q.present.map(|p| block::time_of(p.holding));
    facts::print_accepted(out, name)?;
    facts::print_block(out, Some(name), q.block)?;
    facts::print_area(out, name, area_state(f, Area::A, q.a), found)?;
    facts::print_area(out, name, area_state(f, Area::B, q.b), found)?;
    print_present(out, name, q.present)
}

// Prints what a copy says.
fn print_copy(out: Stdout, name: Name, x: Coming, q: Result<CopyReading, Reason>) -> Printed {
    if x.failure().is_some() {
        facts::print_unread(out, name)?;
        return print_unknown(out, name);
    }
    match q {
        Ok(q) => print_accepted(out, name, q),
        Err(n) => {
            facts::print_refused(out, name, n)?;
            print_unknown(out, name)
        }
    }
}

// What is wrong with the records of a copy whose block is accepted, on standard error; its status.
fn judge_record(name: Name, q: CopyReading) -> Status {
    let Some(p) = q.present else {
        tell(format_args!("{name} has no whole record"));
        return Status::Refused;
    };
    let Some(torn) = facts::torn_in(q.block.fields, q.present, block::time_of(p.holding)) else {
        return Status::Well;
    };
    let words = TornWords {
        name,
        area: torn.area,
        holding: torn.holding,
    };
    tell(format_args!("WARNING: {words}, or was damaged on the way"));
    Status::Refused
}

// What is said of the copy after one that did not come whole.
fn next_words(name: Name) -> &'static str {
    match name {
        Name::Front => "; the back is not there",
        _ => "",
    }
}

// What is wrong with what came of a copy.
fn judge(name: Name, x: Coming, q: Result<CopyReading, Reason>) -> Status {
    let bytes = x.bytes(name);
    if let Some(e) = x.failure() {
        tell(format_args!("could not be read after {bytes}: {e}"));
        return Status::Failed;
    }
    if !x.is_whole() {
        tell(format_args!("ended after {bytes}{}", next_words(name)));
        return Status::Refused;
    }
    match q {
        Ok(q) => judge_record(name, q),
        Err(n) => {
            tell(format_args!("{name} block {}", RefusalWords(n)));
            Status::Refused
        }
    }
}

// What is wrong with two present records. Their bytes are not there to be compared, but their lengths and checksums are.
fn judge_records(p: Present, q: Present) -> Status {
    let h = p.holding;
    let k = q.holding;
    if block::time_of(h) != block::time_of(k) {
        tell("the copies are not in step: their present records have different times");
        return Status::Refused;
    }
    if h.bytes == k.bytes && h.checksum == k.checksum {
        return Status::Well;
    }
    refuse(Reason::TwoRecords)
}

// What is wrong with two copies together, where both blocks are accepted.
fn judge_both(front: CopyReading, back: CopyReading) -> Status {
    let a = front.block;
    let b = back.block;
    if !discovery::same_device(a.fields, b.fields) || !discovery::same_uuids(a, b) {
        return refuse(Reason::Identity);
    }
    match (front.present, back.present) {
        (Some(p), Some(q)) => judge_records(p, q),
        _ => Status::Well,
    }
}

// All bytes that may come.
#[derive(Clone, Copy)]
struct AllWords {
    both: bool,
}

impl Display for AllWords {
    fn fmt<W: fmt::Write>(&self, f: &mut fmt::Formatter<W>) -> fmt::Result {
        if self.both {
            write!(f, "the two copies' {TWO} bytes")
        } else {
            write!(f, "the copy's {} bytes", copies::BYTES)
        }
    }
}

// What is wrong with what follows the last copy: nothing may. The end of a terminal is not waited for.
fn judge_rest(input: Stdin, x: Coming, both: bool) -> Status {
    if !x.is_whole() || input.is_terminal() {
        return Status::Well;
    }
    let all = AllWords { both };
    let mut more = [0u8; 1];
    let mut rest = input;
    match say::read_all(&mut rest, &mut more) {
        Ok(0) => Status::Well,
        Ok(_) => {
            tell(format_args!("more than {all} came"));
            Status::Refused
        }
        Err(e) => {
            let e = ErrorNumber::of(&e);
            tell(format_args!("could not be read after {all}: {e}"));
            Status::Failed
        }
    }
}

// A front and a back.
fn run_both(input: Stdin, out: Stdout, shown: bool) -> Status {
    let x = read_copy(input, Name::Front, shown);
    let y = read_back(input, x, shown);
    let front = x.reading();
    let back = y.reading();
    let printed = print_copy(out, Name::Front, x, front).and_then(|()| print_copy(
        out,
        Name::Back,
        y,
        back,
    ));
    let first = Status::printed(printed).max(judge(Name::Front, x, front));
    if !x.is_whole() {
        return first;
    }
    let second = judge(Name::Back, y, back);
    let both = match (front, back) {
        (Ok(front), Ok(back)) => judge_both(front, back),
        _ => Status::Well,
    };
    first.max(second).max(both).max(judge_rest(input, y, true))
}

// Receives a copy, or two; its status.
pub(crate) fn run(input: Stdin, out: Stdout, errors: Stderr, both: bool) -> Status {
    let shown = errors.is_terminal();
    if both {
        return run_both(input, out, shown);
    }
    let x = read_copy(input, Name::Copy, shown);
    let q = x.reading();
    let printed = print_copy(out, Name::Copy, x, q);
    Status::printed(printed)
        .max(judge(Name::Copy, x, q))
        .max(judge_rest(input, x, false))
}
