// The free room, as C has it.
ghost use Rattle.std.specs.Prelude.{◌≡◌, length};
ghost use Rattle.allocation.specs.Answers.{total_answer, runs_answer, run_answer, fit_answer, table_answer, table_left};
ghost use Rattle.allocation.specs.Change.{allocate_answer, allocate_left, release_answer, release_left};
ghost use Rattle.amseokbin.specs.Records.{counted_answer, length_answer};
ghost use Rattle.amseokbin.specs.Room as Told;

use crate::{AllocationAnswer, CountAnswer, LengthAnswer, RunAnswer, TotalAnswer, records};
use layout::Device;
use refusal::{Reason, Refusal};
use runs::Run;

// Free sectors.
#[unsafe(no_mangle)]
pub extern "C" fn amseokbin_free_total(device: Device, content: &[u8]) -> TotalAnswer
    ensures { result ≡ Told.total_answer (total_answer device content.now) }
{
    match allocation::free_total(device, content) {
        Ok(sectors) => TotalAnswer {
            refusal: refusal::plain(0),
            sectors,
        },
        Err(r) => TotalAnswer {
            refusal: Refusal::from(r),
            sectors: 0,
        },
    }
}

// The free runs, ascending, to a table of runs.
#[unsafe(no_mangle)]
pub extern "C" fn amseokbin_free_runs(
    device: Device,
    content: &[u8],
    table: &mut [Run],
) -> CountAnswer
    ensures value { result ≡ counted_answer (table_answer device content.now (length table.old)) }
    ensures table_after { table.new ≡ table_left device content.now table.old }
{
    records::count_of(allocation::free_runs(device, content, table))
}

// How many free runs there are.
#[unsafe(no_mangle)]
pub extern "C" fn amseokbin_run_count(device: Device, content: &[u8]) -> CountAnswer
    ensures { result ≡ counted_answer (runs_answer device content.now) }
{
    records::count_of(allocation::count_runs(device, content))
}

// A free run, as C has it.
fn tell_run(a: Result<Run, Reason>) -> RunAnswer
    ensures { result ≡ Told.run_answer a }
{
    match a {
        Ok(run) => RunAnswer {
            refusal: refusal::plain(0),
            run,
        },
        Err(r) => RunAnswer {
            refusal: Refusal::from(r),
            run: Run {
                start: 0,
                sectors: 0,
            },
        },
    }
}

// The free run with a number, counted from 0 and ascending.
#[unsafe(no_mangle)]
pub extern "C" fn amseokbin_run_at(device: Device, content: &[u8], number: u64) -> RunAnswer
    ensures { result ≡ Told.run_answer (run_answer device content.now number) }
{
    tell_run(allocation::run_at(device, content, number))
}

// The free run of lowest start that has so many sectors or more.
#[unsafe(no_mangle)]
pub extern "C" fn amseokbin_first_fit(device: Device, content: &[u8], wanted: u64) -> RunAnswer
    ensures { result ≡ Told.run_answer (fit_answer device content.now wanted) }
{
    tell_run(allocation::first_fit(device, content, wanted))
}

// Appends a segment: the new record to a buffer.
#[unsafe(no_mangle)]
pub extern "C" fn amseokbin_allocate(
    device: Device,
    content: &[u8],
    kind: u16,
    wanted: u64,
    changed: &mut [u8],
) -> AllocationAnswer
    ensures value { result ≡ Told.allocation_answer (allocate_answer device content.now kind wanted (length changed.old)) }
    ensures changed_after { changed.new ≡ allocate_left device content.now kind wanted changed.old }
{
    match allocation::allocate(device, content, kind, wanted, changed) {
        Ok(p) => AllocationAnswer {
            refusal: refusal::plain(0),
            start: p.start,
            length: p.length as u64,
        },
        Err(r) => AllocationAnswer {
            refusal: Refusal::from(r),
            start: 0,
            length: 0,
        },
    }
}

// Removes the segment at a position: the new record to a buffer.
#[unsafe(no_mangle)]
pub extern "C" fn amseokbin_release(
    device: Device,
    content: &[u8],
    position: u64,
    changed: &mut [u8],
) -> LengthAnswer
    ensures value { result ≡ length_answer (release_answer device content.now position (length changed.old)) }
    ensures changed_after { changed.new ≡ release_left device content.now position changed.old }
{
    records::length_of(allocation::release(device, content, position as usize, changed))
}
