// A picture of the drive: a line of characters, each a stretch of sectors; the ends, the free room and a letter for each kind.
// Assumes what `io` and `std` do.
use crate::say::{Line, Printed, print, put};
use crate::sentences::SizeWords;
use items::Item;
use layout::Device;
use segments::Segment;
use std::fmt::InlineText;
use std::io::Stdout;

// The narrowest and the widest picture, in characters.
const NARROWEST: u64 = 20;

const WIDEST: usize = 240;

// How the picture is laid out: the sectors of a character, the characters of an end and of the data range, and where that begins.
#[derive(Clone, Copy)]
struct Scale {
    stretch: u64,
    ends: usize,
    cells: usize,
    start: u64,
    end: u64,
}

// The kinds in a stretch, each by its letter.
#[derive(Clone, Copy, PartialEq, Eq)]
enum Kinds {
    None,
    One(u8),
    Several,
}

// What lies in a stretch: how many sectors are in segments, and of which kinds.
#[derive(Clone, Copy)]
struct Stretch {
    covered: u64,
    kinds: Kinds,
}

// a / b rounded up; 0 where b is.
fn ceiling(a: u64, b: u64) -> u64 {
    if b == 0 { 0 } else { a.div_ceil(b) }
}

// A number of characters, as many as the widest picture has at the most.
fn characters(n: u64) -> usize {
    n.min(WIDEST as u64) as usize
}

// The layout of a picture for a terminal of so many columns: each end at least one character, the data range in the others.
fn scale_of(d: Device, columns: u64) -> Scale {
    let width = columns.clamp(NARROWEST, WIDEST as u64);
    let start = layout::data_start(d);
    let end = layout::data_end(d);
    let data = end.saturating_sub(start);
    let rough = ceiling(d.sectors, width);
    let ends = start.checked_div(rough).unwrap_or(0).max(1);
    let cells = width.saturating_sub(ends.saturating_mul(2)).max(1);
    let stretch = ceiling(data, cells).max(1);
    Scale {
        stretch,
        ends: characters(ends),
        cells: characters(ceiling(data, stretch)),
        start,
        end,
    }
}

// The letter of a kind.
fn letter_of(kind: u16) -> u8 {
    match Item::from(kind) {
        Item::ThinMetadata => b'M',
        Item::ThinData => b'D',
        Item::Spare => b'S',
        Item::MetadataVolume => b'V',
        _ => b'?',
    }
}

// The sector after a segment's last one, or the largest number where that is larger.
pub(crate) fn end_of(g: Segment) -> u64 {
    g.start.saturating_add(g.sectors)
}

// The sectors that a segment has from a up to, not including, b.
pub(crate) fn shared(g: Segment, a: u64, b: u64) -> u64 {
    end_of(g).min(b).saturating_sub(g.start.max(a))
}

// The kinds of a stretch with one more.
fn with_kind(kinds: Kinds, letter: u8) -> Kinds {
    match kinds {
        Kinds::None => Kinds::One(letter),
        Kinds::One(before) if before == letter => kinds,
        _ => Kinds::Several,
    }
}

// What lies from a up to, not including, b.
fn stretch_of(r: &[u8], a: u64, b: u64) -> Stretch {
    let mut c = Stretch {
        covered: 0,
        kinds: Kinds::None,
    };
    // the library reads the segments of a record's bytes by their numbers
    for i in 0..items::count_of(r) {
        let g = items::segment_at(r, i);
        let n = shared(g, a, b);
        if n != 0 {
            c = Stretch {
                covered: c.covered.saturating_add(n),
                kinds: with_kind(c.kinds, letter_of(g.kind)),
            };
        }
    }
    c
}

// The character of a stretch of n sectors: a capital where one kind fills it, a small letter where there is free room too, a star
// for more than one kind, a point where all is free.
fn character(c: Stretch, n: u64) -> u8 {
    match c.kinds {
        Kinds::None => b'.',
        Kinds::Several => b'*',
        Kinds::One(letter) if c.covered < n => letter.to_ascii_lowercase(),
        Kinds::One(letter) => letter,
    }
}

// The character of the stretch that begins at sector a.
fn cell(r: &[u8], s: Scale, a: u64) -> u8 {
    let b = a.saturating_add(s.stretch).min(s.end);
    character(stretch_of(r, a, b), b.saturating_sub(a))
}

// Prints the characters of the data range. Each segment is looked at for each of them.
fn print_cells(out: Stdout, r: &[u8], s: Scale) -> Printed {
    let mut line = [0u8; WIDEST];
    let mut a = s.start;
    for c in line.iter_mut().take(s.cells) {
        *c = cell(r, s, a);
        a = a.saturating_add(s.stretch);
    }
    put(out, endian::window(&line, 0, s.cells))
}

// Prints the characters of an end.
fn print_end(out: Stdout, s: Scale) -> Printed {
    put(out, endian::window(&[b'#'; WIDEST], 0, s.ends))
}

// The first sector of the character in a column, one stretch after the other.
fn sector_of(s: Scale, column: usize) -> u64 {
    let n = column.saturating_sub(s.ends) as u64;
    s.start
        .saturating_add(s.stretch.saturating_mul(n))
        .min(s.end)
}

// The scale below a picture of so many characters: a mark at each quarter where it is wide enough for three, with the size of what lies
// before it, and the drive's.
fn print_scale(out: Stdout, d: Device, s: Scale, width: usize) -> Printed {
    let end: Line = InlineText::of(SizeWords(d.sectors));
    let mut line: Line = InlineText::of("0");
    if 72 <= width {
        let quarter = width / 4;
        for column in [quarter, width / 2, width - quarter] {
            let size = SizeWords(sector_of(s, column));
            line = InlineText::of(format_args!("{:<column$}|{size}", line.as_str()));
        }
    }
    let column = width.saturating_sub(end.as_str().len());
    print(
        out,
        format_args!("{:<column$}{}\n", line.as_str(), end.as_str()),
    )
}

// Prints the picture, its scale and what its characters mean.
pub(crate) fn draw(out: Stdout, d: Device, columns: u64, r: &[u8]) -> Printed {
    let s = scale_of(d, columns);
    put(out, b"\n")?;
    print_end(out, s)?;
    print_cells(out, r, s)?;
    print_end(out, s)?;
    put(out, b"\n")?;
    print_scale(out, d, s, s.cells.saturating_add(s.ends.saturating_mul(2)))?;
    put(
        out,
        b"# end, M thin-metadata, D thin-data, S spare, V metadata-volume, * mixed, . free\n",
    )?;
    print(
        out,
        format_args!(
            "a small letter: free room too; a character is {} sectors, {}\n",
            s.stretch,
            SizeWords(s.stretch)
        ),
    )
}
