// The word `show`: the pool for people, with every segment, the free room and a picture; or, with `--plain`, one key and value a
// line. Assumes what `io` and `std` do.
use crate::copies::Look;
use crate::facts::OtherWords;
use crate::say::{Line, Printed, print};
use crate::sentences::{
    AreaName, CountWords, DateWords, HeadWords, KindName, Name, RecordRefusal, SectorWords,
    SizeWords, YesNo, number_of, text_of,
};
use crate::statuses::Status;
use crate::{copies, facts, picture};
use block::Reading;
use discovery::Found;
use items::Head;
use refusal::Reason;
use runs::Run;
use segments::Segment;
use std::fmt;
use std::fmt::{Display, InlineText};
use std::io::Stdout;

// The free runs of a record, of which there is one more than segments at the most.
const RUNS: usize = copies::RECORD / items::ITEM_BYTES + 1;

// What is known of the record that is shown, and its bytes.
#[derive(Clone, Copy)]
struct Shown<'a> {
    look: Look<'a>,
    block: Result<Reading, Reason>,
    found: Found,
    step: bool,
    checked: Result<(), Reason>,
    columns: u64,
    record: &'a [u8],
}

// A start, a length and its size.
#[derive(Clone, Copy)]
struct RowWords {
    start: u64,
    sectors: u64,
}

impl Display for RowWords {
    fn fmt<W: fmt::Write>(&self, f: &mut fmt::Formatter<W>) -> fmt::Result {
        let size = SizeWords(self.sectors);
        write!(f, "{:12}  {:12}  {size}", self.start, self.sectors)
    }
}

// The row of a segment or a free run for people: its position, its place, and in column 48 what it is.
#[derive(Clone, Copy)]
struct TableRow<T> {
    position: u64,
    place: RowWords,
    what: T,
}

impl<T: Display> Display for TableRow<T> {
    fn fmt<W: fmt::Write>(&self, f: &mut fmt::Formatter<W>) -> fmt::Result {
        let place: Line = InlineText::of(self.place);
        write!(
            f,
            "{:6}  {:<40}{}",
            self.position,
            place.as_str(),
            self.what
        )
    }
}

fn segment_row(i: u64, g: Segment) -> TableRow<KindName> {
    TableRow {
        position: i,
        place: RowWords {
            start: g.start,
            sectors: g.sectors,
        },
        what: KindName(g.kind),
    }
}

fn run_row(i: u64, g: Run) -> TableRow<&'static str> {
    TableRow {
        position: i,
        place: RowWords {
            start: g.start,
            sectors: g.sectors,
        },
        what: "free",
    }
}

impl Shown<'_> {
    fn out(self) -> Stdout {
        self.look.drive.out
    }

    // The number of the free sectors of an accepted record.
    fn free(self) -> u64 {
        allocation::free_total(self.look.numbers(), self.record).unwrap_or(0)
    }

    // The sectors of the data range that are in a segment.
    fn allocated(self) -> u64 {
        let d = self.look.numbers();
        layout::data_end(d)
            .saturating_sub(layout::data_start(d))
            .saturating_sub(self.free())
    }
}

// A key with a value, as a line.
fn pair<T: Display + Drop>(out: Stdout, key: &str, value: T) -> Printed {
    print(out, format_args!("{key}={value}\n"))
}

fn plain_segment(out: Stdout, i: usize, g: Segment) -> Printed {
    print(out, format_args!("segment.{i}.kind={}\n", g.kind))?;
    print(out, format_args!("segment.{i}.start={}\n", g.start))?;
    print(out, format_args!("segment.{i}.sectors={}\n", g.sectors))
}

fn plain_run(out: Stdout, i: usize, g: Run) -> Printed {
    print(out, format_args!("free.{i}.start={}\n", g.start))?;
    print(out, format_args!("free.{i}.sectors={}\n", g.sectors))
}

// The lines of all segments, for people or plain.
fn print_segments(s: Shown<'_>, plain: bool) -> Printed {
    // the library reads the segments of a record's bytes by their numbers
    for i in 0..items::count_of(s.record) {
        let g = items::segment_at(s.record, i);
        if plain {
            plain_segment(s.out(), i, g)?;
        } else {
            print(s.out(), format_args!("{}\n", segment_row(i as u64, g)))?;
        }
    }
    Ok(())
}

// The lines of all free runs.
fn print_runs(out: Stdout, plain: bool, runs: &[Run]) -> Printed {
    for (i, g) in runs.iter().enumerate() {
        if plain {
            plain_run(out, i, *g)?;
        } else {
            print(out, format_args!("{}\n", run_row(i as u64, *g)))?;
        }
    }
    Ok(())
}

// The first lines of the plain form: identity, place and time.
fn plain_first(s: Shown<'_>) -> Printed {
    let out = s.out();
    let d = s.look.numbers();
    let f = s.found.finding;
    if let Ok(b) = s.block {
        pair(out, "pool", text_of(&b.pool))?;
        pair(out, "device", text_of(&b.blockdev))?;
    }
    pair(out, "sectors", d.sectors)?;
    pair(out, "metadata", d.metadata)?;
    pair(out, "reserved", d.reserved)?;
    pair(out, "found", Name::from(f.side))?;
    pair(out, "area", AreaName(f.area))?;
    pair(out, "bytes", f.bytes)?;
    pair(out, "seconds", f.seconds)?;
    pair(out, "nanoseconds", f.nanoseconds)
}

// The next lines: the other copy, in step, sure, the record's number, and, where two segments share a sector, which.
fn plain_state(s: Shown<'_>) -> Printed {
    let out = s.out();
    let other = OtherWords {
        other: s.found.other,
        unread: s.look.lacks_block(),
    };
    pair(out, "other", other)?;
    pair(out, "in-step", YesNo(s.step))?;
    pair(out, "sure", YesNo(s.look.sure))?;
    match s.checked {
        Ok(()) => pair(out, "record", 0u8),
        Err(n) => {
            pair(out, "record", number_of(n))?;
            match n {
                Reason::SegmentClash(first, second) => {
                    print(out, format_args!("clash={first} {second}\n"))
                }
                _ => Ok(()),
            }
        }
    }
}

// The lines of the head of an accepted record.
fn plain_head(out: Stdout, h: Head) -> Printed {
    pair(out, "head", items::head_kind(h))?;
    pair(out, "block-size", items::block_size(h))?;
    match h {
        Head::Marked(_, mark) => pair(out, "low-water", mark),
        _ => Ok(()),
    }
}

// The lines of an accepted record, with its free runs.
fn plain_record(s: Shown<'_>, runs: &[Run]) -> Printed {
    let out = s.out();
    plain_head(out, items::head_of(s.record))?;
    pair(out, "segments", items::count_of(s.record))?;
    print_segments(s, true)?;
    pair(out, "allocated", s.allocated())?;
    pair(out, "free-runs", runs.len())?;
    pair(out, "free", s.free())?;
    print_runs(out, true, runs)
}

// The first lines for people.
fn people_first(s: Shown<'_>) -> Printed {
    let out = s.out();
    let d = s.look.numbers();
    if let Ok(b) = s.block {
        print(out, format_args!("pool      {}\n", text_of(&b.pool)))?;
        print(out, format_args!("device    {}\n", text_of(&b.blockdev)))?;
    }
    print(out, format_args!("drive     {}\n", SectorWords(d.sectors)))?;
    print(
        out,
        format_args!(
            "ends      metadata {}, reserved {}, at each end\n",
            CountWords(d.metadata as u64, "sector"),
            CountWords(d.reserved as u64, "sector")
        ),
    )
}

// What is said of the copies that a record was found in.
fn copies_words(s: Shown<'_>) -> &'static str {
    if !s.look.sure {
        "not all read: perhaps not the newest"
    } else if s.step {
        "in step"
    } else {
        "NOT in step"
    }
}

// The lines of the found record.
fn people_state(s: Shown<'_>) -> Printed {
    let out = s.out();
    let f = s.found.finding;
    print(
        out,
        format_args!(
            "record    {}, {} {}\n",
            CountWords(f.bytes as u64, "byte"),
            Name::from(f.side),
            AreaName(f.area)
        ),
    )?;
    let date = DateWords(facts::record_time(f));
    print(out, format_args!("time      {date}\n"))?;
    print(out, format_args!("copies    {}\n", copies_words(s)))
}

// The lines of an accepted record with its free runs, and the picture.
fn people_record(s: Shown<'_>, runs: &[Run]) -> Printed {
    let out = s.out();
    let h = items::head_of(s.record);
    print(out, format_args!("head      {}\n", HeadWords(h)))?;
    let block = SectorWords(items::block_size(h) as u64);
    print(out, format_args!("block     {block}\n"))?;
    let segments = CountWords(items::count_of(s.record) as u64, "segment");
    let used = SectorWords(s.allocated());
    print(out, format_args!("used      {segments}, {used}\n"))?;
    print_segments(s, false)?;
    let count = CountWords(runs.len() as u64, "run");
    let free = SectorWords(s.free());
    print(out, format_args!("free      {count}, {free}\n"))?;
    print_runs(out, false, runs)?;
    picture::draw(out, s.look.numbers(), s.columns, s.record)
}

// The line of one of two segments that share a sector: its row, and its last sector.
fn clash_line(out: Stdout, i: u64, g: Segment) -> Printed {
    let last = picture::end_of(g).saturating_sub(1);
    print(
        out,
        format_args!("{}, last sector {last}\n", segment_row(i, g)),
    )
}

// The line of the sectors that two segments both hold.
fn shared_line(out: Stdout, g: Segment, h: Segment) -> Printed {
    let first = g.start.max(h.start);
    let n = picture::shared(g, h.start, picture::end_of(h));
    if n == 1 {
        return print(out, format_args!("clash     both hold sector {first}\n"));
    }
    let last = first.saturating_add(n).saturating_sub(1);
    let count = CountWords(n, "sector");
    print(
        out,
        format_args!("clash     both hold sectors {first} to {last}, {count}\n"),
    )
}

// The line of a record that is not accepted; where two segments share a sector, a line for each and one for what both hold.
fn people_refused(s: Shown<'_>, n: Reason) -> Printed {
    let out = s.out();
    let r = s.record;
    print(out, format_args!("content   {}\n", RecordRefusal(n, r)))?;
    let Reason::SegmentClash(first, second) = n else {
        return Ok(());
    };
    let g = items::segment_at(r, first as usize);
    let h = items::segment_at(r, second as usize);
    clash_line(out, first, g)?;
    clash_line(out, second, h)?;
    shared_line(out, g, h)
}

fn print_plain(s: Shown<'_>, runs: &[Run]) -> Printed {
    plain_first(s)?;
    plain_state(s)?;
    match s.checked {
        Ok(()) => plain_record(s, runs),
        Err(_) => Ok(()),
    }
}

fn print_people(s: Shown<'_>, runs: &[Run]) -> Printed {
    people_first(s)?;
    people_state(s)?;
    match s.checked {
        Ok(()) => people_record(s, runs),
        Err(n) => people_refused(s, n),
    }
}

// Shows a record that was found.
fn show_found(s: Shown<'_>, plain: bool) -> Status {
    let mut table = [Run {
        start: 0,
        sectors: 0,
    }; RUNS];
    let count = allocation::free_runs(s.look.numbers(), s.record, &mut table).unwrap_or(0);
    let runs = table.get(..count as usize).unwrap_or(&[]);
    let printed = if plain {
        print_plain(s, runs)
    } else {
        print_people(s, runs)
    };
    facts::note_state(s.look, s.step, facts::record_time(s.found.finding));
    Status::unless(s.checked.is_ok(), Status::Refused).max(Status::printed(printed))
}

// The word `show`.
pub(crate) fn run(look: Look<'_>, plain: bool, columns: u64) -> Status {
    let step = discovery::examine(look.copies()).step;
    let mut bytes = [0u8; copies::RECORD];
    let status = match facts::read_found(look, &mut bytes) {
        Err(n) => facts::refuse_found(look, n),
        Ok(found) => {
            let record = endian::window(&bytes, 0, found.finding.bytes as usize);
            let shown = Shown {
                look,
                block: facts::first_block(look.copies()),
                found,
                step,
                checked: record::check(look.numbers(), record),
                columns,
                record,
            };
            show_found(shown, plain)
        }
    };
    look.status().max(status)
}
