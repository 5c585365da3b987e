// The words for what is printed: sides, areas, times, sizes, segments, heads and refusals.
ghost use Rattle.std.specs.Prelude.{◌<◌, ◌≤◌, ◌^◌};

use crate::image;
use block::{Holding, Time};
use items::{Head, Item};
use layout::{Area, Side};
use refusal::{Reason, Refusal};
use segments::Segment;
use std::fmt;
use std::fmt::Display;

// Bytes that are text; no text where they are not.
pub(crate) fn text_of(s: &[u8]) -> &str {
    std::str::from_utf8(s).unwrap_or("")
}

// The name of a copy: by itself, or one of two.
#[derive(Clone, Copy)]
pub(crate) enum Name {
    Copy,
    Front,
    Back,
}

impl From<Side> for Name {
    fn from(side: Side) -> Name {
        match side {
            Side::Front => Name::Front,
            Side::Back => Name::Back,
        }
    }
}

impl Display for Name {
    fn fmt<W: fmt::Write>(&self, f: &mut fmt::Formatter<W>) -> fmt::Result {
        f.write_str(match self {
            Name::Copy => "copy",
            Name::Front => "front",
            Name::Back => "back",
        })
    }
}

// A name before other words, where there is one.
#[derive(Clone, Copy)]
pub(crate) struct Before(pub Option<Name>);

impl Display for Before {
    fn fmt<W: fmt::Write>(&self, f: &mut fmt::Formatter<W>) -> fmt::Result {
        match self.0 {
            Some(name) => write!(f, "{name} "),
            None => Ok(()),
        }
    }
}

#[derive(Clone, Copy)]
pub(crate) struct AreaName(pub Area);

impl Display for AreaName {
    fn fmt<W: fmt::Write>(&self, f: &mut fmt::Formatter<W>) -> fmt::Result {
        f.write_str(match self.0 {
            Area::A => "a",
            Area::B => "b",
        })
    }
}

#[derive(Clone, Copy)]
pub(crate) struct YesNo(pub bool);

impl Display for YesNo {
    fn fmt<W: fmt::Write>(&self, f: &mut fmt::Formatter<W>) -> fmt::Result {
        f.write_str(if self.0 { "yes" } else { "no" })
    }
}

// A time as a date, to the nanosecond; past the year 9999 in seconds.
#[derive(Clone, Copy)]
pub(crate) struct DateWords(pub Time);

impl Display for DateWords {
    fn fmt<W: fmt::Write>(&self, f: &mut fmt::Formatter<W>) -> fmt::Result {
        let Time {
            seconds,
            nanoseconds,
        } = self.0;
        match calendar::date_of(seconds) {
            None => write!(f, "{seconds}.{nanoseconds:09} s"),
            Some(x) => {
                write!(f, "{:04}-{:02}-{:02} ", x.year, x.month, x.day)?;
                write!(f, "{:02}:{:02}:{:02}", x.hour, x.minute, x.second)?;
                write!(f, ".{nanoseconds:09} UTC")
            }
        }
    }
}

// What a used entry says: its bytes and its time.
#[derive(Clone, Copy)]
pub(crate) struct HoldingWords(pub Holding);

impl Display for HoldingWords {
    fn fmt<W: fmt::Write>(&self, f: &mut fmt::Formatter<W>) -> fmt::Result {
        write!(
            f,
            "{} bytes {}",
            self.0.bytes,
            DateWords(block::time_of(self.0))
        )
    }
}

// What is said of a torn area, behind the name of its copy.
#[derive(Clone, Copy)]
pub(crate) struct TornWords {
    pub name: Name,
    pub area: Area,
    pub holding: Holding,
}

impl Display for TornWords {
    fn fmt<W: fmt::Write>(&self, f: &mut fmt::Formatter<W>) -> fmt::Result {
        write!(
            f,
            "{} {} is torn: a newer record of {} was stored there and is lost",
            self.name,
            AreaName(self.area),
            HoldingWords(self.holding)
        )
    }
}

// A number of things, with the name of one of them.
#[derive(Clone, Copy)]
pub(crate) struct CountWords<'a>(pub u64, pub &'a str);

impl Display for CountWords<'_> {
    fn fmt<W: fmt::Write>(&self, f: &mut fmt::Formatter<W>) -> fmt::Result {
        write!(f, "{} {}", self.0, self.1)?;
        if self.0 == 1 {
            return Ok(());
        }
        f.write_str("s")
    }
}

// A unit of sizes, by its sectors.
#[derive(Clone, Copy)]
struct Unit {
    sectors: u64,
    name: &'static str,
}

// The unit in which a size of 2 sectors at least is said.
fn unit_for(sectors: u64) -> Unit
    ensures some { 0 < result.sectors }
    ensures most { result.sectors ≤ 2 ^ 31 }
{
    match sectors {
        0..2048 => Unit {
            sectors: 2,
            name: "KiB",
        },
        2048..2097152 => Unit {
            sectors: 2048,
            name: "MiB",
        },
        2097152..2147483648 => Unit {
            sectors: 2097152,
            name: "GiB",
        },
        _ => Unit {
            sectors: 2147483648,
            name: "TiB",
        },
    }
}

// A number of sectors as a size, to a tenth of its unit.
#[derive(Clone, Copy)]
pub(crate) struct SizeWords(pub u64);

impl Display for SizeWords {
    fn fmt<W: fmt::Write>(&self, f: &mut fmt::Formatter<W>) -> fmt::Result {
        let sectors = self.0;
        if sectors < 2 {
            return write!(f, "{} B", sectors * image::SECTOR);
        }
        let unit = unit_for(sectors);
        let whole = sectors / unit.sectors;
        let tenths = sectors % unit.sectors * 10 / unit.sectors;
        write!(f, "{whole}.{tenths} {}", unit.name)
    }
}

// A number of sectors, and its size.
#[derive(Clone, Copy)]
pub(crate) struct SectorWords(pub u64);

impl Display for SectorWords {
    fn fmt<W: fmt::Write>(&self, f: &mut fmt::Formatter<W>) -> fmt::Result {
        write!(f, "{}, {}", CountWords(self.0, "sector"), SizeWords(self.0))
    }
}

// The name of a segment's kind.
#[derive(Clone, Copy)]
pub(crate) struct KindName(pub u16);

impl Display for KindName {
    fn fmt<W: fmt::Write>(&self, f: &mut fmt::Formatter<W>) -> fmt::Result {
        match Item::from(self.0) {
            Item::ThinMetadata => f.write_str("thin-metadata"),
            Item::ThinData => f.write_str("thin-data"),
            Item::Spare => f.write_str("spare"),
            Item::MetadataVolume => f.write_str("metadata-volume"),
            _ => write!(f, "kind {}", self.0),
        }
    }
}

#[derive(Clone, Copy)]
pub(crate) struct SegmentWords(pub Segment);

impl Display for SegmentWords {
    fn fmt<W: fmt::Write>(&self, f: &mut fmt::Formatter<W>) -> fmt::Result {
        let g = self.0;
        write!(
            f,
            "{} start {} sectors {}",
            KindName(g.kind),
            g.start,
            g.sectors
        )
    }
}

// The kind of a record's head, and its low water mark where it has one.
#[derive(Clone, Copy)]
pub(crate) struct HeadWords(pub Head);

impl Display for HeadWords {
    fn fmt<W: fmt::Write>(&self, f: &mut fmt::Formatter<W>) -> fmt::Result {
        write!(f, "kind {}", items::head_kind(self.0))?;
        match self.0 {
            Head::Marked(_, mark) => {
                write!(f, ", low water mark {}", CountWords(mark as u64, "block"))
            }
            _ => Ok(()),
        }
    }
}

// The number of a refusal.
pub(crate) fn number_of(reason: Reason) -> u8 {
    Refusal::from(reason).number
}

// The same, and its words.
#[derive(Clone, Copy)]
struct Named(Reason);

impl Display for Named {
    fn fmt<W: fmt::Write>(&self, f: &mut fmt::Formatter<W>) -> fmt::Result {
        let n = number_of(self.0);
        let words = refusal::words_of(n);
        let text = text_of(endian::window(&words.bytes, 0, words.used));
        write!(f, "refused {n}: {text}")
    }
}

// What a refusal comes from, or what to do then, where its words do not say it.
#[derive(Clone, Copy)]
struct Advice(Reason);

impl Display for Advice {
    fn fmt<W: fmt::Write>(&self, f: &mut fmt::Formatter<W>) -> fmt::Result {
        match self.0 {
            Reason::RecordLength => write!(f, ": a record has 1 to {} bytes", layout::RECORD_LIMIT),
            Reason::RecordFull => write!(f, ", {}; release one first", items::MOST_SEGMENTS),
            reason => f.write_str(advice_on(reason)),
        }
    }
}

// The same, of a refusal whose advice names no limit.
fn advice_on(reason: Reason) -> &'static str {
    match reason {
        Reason::Signature => ": no pool is there, or its block was written over",
        Reason::BlockChecksum => ": it is torn or damaged",
        Reason::DeviceSize => ": a pool takes a device of 2097152 sectors (1 GiB) at least",
        Reason::UuidByte => ": only 0-9 and a-f are",
        Reason::MetadataSize => ": the metadata size is an even number of sectors, 2040 to 16384",
        Reason::ReservedSize => ": the reserved size is 65536 sectors at the most",
        Reason::NoBlock => "; check says why, restore puts a backup back, format makes a new pool",
        Reason::Identity => ": the copies are of different pools or devices",
        Reason::NoRecord => "; a backup can be restored",
        Reason::TwoRecords => "; neither can be told to be newer",
        Reason::NotInStep => "; mend first",
        Reason::NoRoom => "; show lists the free room",
        Reason::NoSegment => "; show lists them, counted from 0",
        Reason::HeadMove => "; amseokbin mark IMAGE 0 comes first",
        _ => "",
    }
}

// A refusal with its words and its advice.
#[derive(Clone, Copy)]
pub(crate) struct RefusalWords(pub Reason);

impl Display for RefusalWords {
    fn fmt<W: fmt::Write>(&self, f: &mut fmt::Formatter<W>) -> fmt::Result {
        write!(f, "{}{}", Named(self.0), Advice(self.0))
    }
}

// The refusal of a record: where its low water mark would be lost, with that mark; where two segments share a sector, with their
// positions, and both as the record has them. With the longest first words, kinds and numbers that line has 256 bytes, all that a line
// has room for.
#[derive(Clone, Copy)]
pub(crate) struct RecordRefusal<'a>(pub Reason, pub &'a [u8]);

impl Display for RecordRefusal<'_> {
    fn fmt<W: fmt::Write>(&self, f: &mut fmt::Formatter<W>) -> fmt::Result {
        let reason = self.0;
        let r = self.1;
        match reason {
            Reason::HeadMove => {
                let mark = items::low_water(items::head_of(r));
                let blocks = CountWords(mark as u64, "block");
                write!(f, "{}, {blocks}{}", Named(reason), Advice(reason))
            }
            Reason::SegmentClash(first, second) => {
                write!(
                    f,
                    "refused {}: segments {first} and {second} share a sector: ",
                    number_of(reason)
                )?;
                write!(
                    f,
                    "{}, {}",
                    SegmentWords(items::segment_at(r, first as usize)),
                    SegmentWords(items::segment_at(r, second as usize))
                )
            }
            _ => write!(f, "{}", RefusalWords(reason)),
        }
    }
}

// The refusal of a low water mark for a head that has none.
#[derive(Clone, Copy)]
pub(crate) struct NoMark;

impl Display for NoMark {
    fn fmt<W: fmt::Write>(&self, f: &mut fmt::Formatter<W>) -> fmt::Result {
        write!(
            f,
            "refused {}: the head has no low water mark; amseokbin head IMAGE up gives it one",
            number_of(Reason::RecordForm)
        )
    }
}
