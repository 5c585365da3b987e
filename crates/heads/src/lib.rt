// The head of a segment record, changed: moved up to kind 17, moved back to kind 16, or with another low water mark. Every change checks the
// device numbers and the record first, as allocation does; the items after the head stay, byte for byte.
#![tactic(auto, unfolding(crate::specs::Changing::raised, crate::specs::Changing::lowered, crate::specs::Changing::remarked, record::specs::Accept::named, refusal::specs::Refusals::plain_but, refusal::specs::Tests::first))]

ghost use Rattle.std.specs.Prelude.{◌≡◌, length};
ghost use Rattle.refusal.specs.Tests.{first};
ghost use Rattle.refusal.specs.Reasons.{answer};
ghost use Rattle.heads.specs.Changing.{raised, lowered, remarked, head_after, keeps, has_mark, head_tests, change_answer, change_left};

use items::Head;
use layout::Device;
use refusal::Reason;

// What is asked of a head: up, from kind 16 to kind 17 with the mark 0; back, from kind 17 to kind 16; or this low water mark in blocks.
#[derive(Clone, Copy, PartialEq, Eq)]
pub enum Change {
    Up,
    Back,
    Mark(u32),
}

// A head moved up.
fn raise(h: Head) -> Head
    ensures { result ≡ raised h }
{
    match h {
        Head::Plain(size) => Head::Marked(size, 0),
        Head::Marked(_, _) | Head::Unknown => h,
    }
}

// A head moved back.
fn lower(h: Head) -> Head
    ensures { result ≡ lowered h }
{
    match h {
        Head::Plain(_) | Head::Unknown => h,
        Head::Marked(size, _) => Head::Plain(size),
    }
}

// A head with another mark; one that has none stays.
fn remark(mark: u32, h: Head) -> Head
    ensures { result ≡ remarked mark h }
{
    match h {
        Head::Plain(_) | Head::Unknown => h,
        Head::Marked(size, _) => Head::Marked(size, mark),
    }
}

// The head after a change.
fn head_after(c: Change, h: Head) -> Head
    ensures { result ≡ head_after c h }
{
    match c {
        Change::Up => raise(h),
        Change::Back => lower(h),
        Change::Mark(mark) => remark(mark, h),
    }
}

// Whether moving a head back keeps all that it says: its mark is 0.
fn keeps(h: Head) -> bool
    ensures { result ≡ keeps h }
{
    items::low_water(h) == 0
}

// Whether a head has a place for a mark.
fn has_mark(h: Head) -> bool
    ensures { result ≡ has_mark h }
{
    items::head_kind(h) == items::MARKED_KIND
}

// Whether a head can be changed so: moving back must not lose its mark, and a mark must have a place.
fn check_head(c: Change, h: Head) -> Result<(), Reason>
    ensures { result ≡ answer (first (head_tests c h)) tt }
{
    match c {
        Change::Up => Ok(()),
        Change::Back => {
            if !keeps(h) {
                return Err(Reason::HeadMove);
            }
            Ok(())
        }
        Change::Mark(_) => {
            if !has_mark(h) {
                return Err(Reason::RecordForm);
            }
            Ok(())
        }
    }
}

// Changes the head of a record: the new record is written to the start of out, and its length in bytes answered.
pub fn rewrite(d: Device, s: &[u8], c: Change, out: &mut [u8]) -> Result<usize, Reason>
    ensures value { result ≡ change_answer d s.now c (length out.old) }
    ensures out_after { out.new ≡ change_left d s.now c out.old }
{
    record::check(d, s)?;
    let h = items::head_of(s);
    check_head(c, h)?;
    let after = head_after(c, h);
    let size = items::head_size(after);
    let t = items::items_of(s);
    if out.len() < size + t.len() {
        return Err(Reason::SliceSize);
    }
    // There is room for it.
    let _ = items::put_head(out, after);
    endian::put(out, size, t);
    Ok(size + t.len())
}
