// Records, as C has them.
ghost use Rattle.std.specs.Prelude.{◌≡◌, length};
ghost use Rattle.refusal.specs.Tests.{first};
ghost use Rattle.refusal.specs.Refusals.{plain};
ghost use Rattle.items.specs.declared.Head.TheVariants.{Plain, Marked};
ghost use Rattle.items.specs.Making.{begin_tests, begun, put_answer, put_left};
ghost use Rattle.record.specs.Accept.{record_tests, named};
ghost use Rattle.record.specs.Answers.{segment_answer, segments_answer, segments_left};
ghost use Rattle.amseokbin.specs.Records as Told;

use crate::{CountAnswer, HeadAnswer, LengthAnswer, SegmentAnswer};
use items::Head;
use layout::Device;
use refusal::{Reason, Refusal};
use segments::Segment;

// A record's length, as C has it.
pub(super) fn length_of(a: Result<usize, Reason>) -> LengthAnswer
    ensures { result ≡ Told.length_answer a }
{
    match a {
        Ok(n) => LengthAnswer {
            refusal: refusal::plain(0),
            length: n as u64,
        },
        Err(r) => LengthAnswer {
            refusal: Refusal::from(r),
            length: 0,
        },
    }
}

// A number of segments or of free runs, as C has it.
pub(super) fn count_of(a: Result<u64, Reason>) -> CountAnswer
    ensures { result ≡ Told.counted_answer a }
{
    match a {
        Ok(count) => CountAnswer {
            refusal: refusal::plain(0),
            count,
        },
        Err(r) => CountAnswer {
            refusal: Refusal::from(r),
            count: 0,
        },
    }
}

// Checks a record on a device.
#[unsafe(no_mangle)]
pub extern "C" fn amseokbin_record_check(device: Device, content: &[u8]) -> Refusal
    ensures { result ≡ named (first (record_tests device content.now)) content.now }
{
    crate::refusal_in(record::check(device, content))
}

// What an accepted record says: the kind of its head, its data block size and low water mark, its number of segments.
#[unsafe(no_mangle)]
pub extern "C" fn amseokbin_record_head(device: Device, content: &[u8]) -> HeadAnswer
    ensures { result ≡ Told.head_answer device content.now }
{
    match record::read_head(device, content) {
        Ok(h) => HeadAnswer {
            refusal: refusal::plain(0),
            kind: items::head_kind(h),
            size: items::block_size(h),
            mark: items::low_water(h),
            segments: items::count_of(content) as u64,
        },
        Err(r) => HeadAnswer {
            refusal: Refusal::from(r),
            kind: 0,
            size: 0,
            mark: 0,
            segments: 0,
        },
    }
}

// The segment at a position, counted from 0.
#[unsafe(no_mangle)]
pub extern "C" fn amseokbin_record_segment(
    device: Device,
    content: &[u8],
    position: u64,
) -> SegmentAnswer
    ensures { result ≡ Told.segment_answer (segment_answer device content.now position) }
{
    match record::read_segment(device, content, position as usize) {
        Ok(segment) => SegmentAnswer {
            refusal: refusal::plain(0),
            segment,
        },
        Err(r) => SegmentAnswer {
            refusal: Refusal::from(r),
            segment: Segment {
                kind: 0,
                start: 0,
                sectors: 0,
            },
        },
    }
}

// The segments from a position on, as many as a table has room for: kind, start, length in sectors for each.
#[unsafe(no_mangle)]
pub extern "C" fn amseokbin_record_segments(
    device: Device,
    content: &[u8],
    position: u64,
    table: &mut [u64],
) -> CountAnswer
    ensures value { result ≡ Told.counted_answer (segments_answer device content.now position (length table.old)) }
    ensures table_after { table.new ≡ segments_left device content.now position table.old }
{
    count_of(record::read_segments(device, content, position as usize, table).map(|k| k as u64))
}

// Begins a record with its data block size: a head of kind 16.
#[unsafe(no_mangle)]
pub extern "C" fn amseokbin_record_begin(content: &mut [u8], size: u32) -> Refusal
    ensures value { result ≡ plain (first (begin_tests content.old (Plain size))) }
    ensures content_after { content.new ≡ begun content.old (Plain size) }
{
    crate::refusal_in(items::begin(content, Head::Plain(size)))
}

// Begins a record with its data block size and a low water mark: a head of kind 17.
#[unsafe(no_mangle)]
pub extern "C" fn amseokbin_record_begin_marked(content: &mut [u8], size: u32, mark: u32) -> Refusal
    ensures value { result ≡ plain (first (begin_tests content.old (Marked size mark))) }
    ensures content_after { content.new ≡ begun content.old (Marked size mark) }
{
    crate::refusal_in(items::begin(content, Head::Marked(size, mark)))
}

// Puts a segment at a position of a record that was begun in a buffer.
#[unsafe(no_mangle)]
pub extern "C" fn amseokbin_record_put(
    content: &mut [u8],
    position: u64,
    segment: Segment,
) -> LengthAnswer
    ensures value { result ≡ Told.length_answer (put_answer content.old position) }
    ensures content_after { content.new ≡ put_left content.old position segment }
{
    length_of(items::put_at(content, position as usize, segment))
}
