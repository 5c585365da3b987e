// Heads moved up and back, and their marks, as C has them.
ghost use Rattle.std.specs.Prelude.{◌≡◌, length};
ghost use Rattle.heads.specs.declared.Change.TheVariants as Asked;
ghost use Rattle.heads.specs.Changing.{change_answer, change_left};
ghost use Rattle.amseokbin.specs.Records as Told;

use crate::{LengthAnswer, records};
use heads::Change;
use layout::Device;

// Moves a record's head up: the new record to a buffer.
#[unsafe(no_mangle)]
pub extern "C" fn amseokbin_head_up(
    device: Device,
    content: &[u8],
    changed: &mut [u8],
) -> LengthAnswer
    ensures value { result ≡ Told.length_answer (change_answer device content.now Asked.Up (length changed.old)) }
    ensures changed_after { changed.new ≡ change_left device content.now Asked.Up changed.old }
{
    records::length_of(heads::rewrite(device, content, Change::Up, changed))
}

// Moves a record's head back: the new record to a buffer.
#[unsafe(no_mangle)]
pub extern "C" fn amseokbin_head_back(
    device: Device,
    content: &[u8],
    changed: &mut [u8],
) -> LengthAnswer
    ensures value { result ≡ Told.length_answer (change_answer device content.now Asked.Back (length changed.old)) }
    ensures changed_after { changed.new ≡ change_left device content.now Asked.Back changed.old }
{
    records::length_of(heads::rewrite(device, content, Change::Back, changed))
}

// Sets the low water mark of a record's head: the new record to a buffer.
#[unsafe(no_mangle)]
pub extern "C" fn amseokbin_head_mark(
    device: Device,
    content: &[u8],
    mark: u32,
    changed: &mut [u8],
) -> LengthAnswer
    ensures value { result ≡ Told.length_answer (change_answer device content.now (Asked.Mark mark) (length changed.old)) }
    ensures changed_after { changed.new ≡ change_left device content.now (Asked.Mark mark) changed.old }
{
    records::length_of(heads::rewrite(device, content, Change::Mark(mark), changed))
}
