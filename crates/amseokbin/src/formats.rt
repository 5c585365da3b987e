// The stores that write two whole copies, as C has them.
ghost use Rattle.std.specs.Prelude.{◌≡◌};
ghost use Rattle.format.specs.Writing as Format;
ghost use Rattle.amseokbin.specs.Plans.{store_answer};

use crate::{StoreAnswer, storing};
use discovery::Copies;
use layout::Device;

// How many stores there are.
#[unsafe(no_mangle)]
pub extern "C" fn amseokbin_format_count() -> u64
    ensures { result ≡ Format.store_count }
{
    format::count()
}

// The group of a store, 0 to 3; 4 past the last store.
#[unsafe(no_mangle)]
pub extern "C" fn amseokbin_format_group(number: u64) -> u8
    ensures { result ≡ Format.group_at number }
{
    format::group(number)
}

// A store: its 512 bytes to the lent sector.
#[unsafe(no_mangle)]
pub extern "C" fn amseokbin_format_store(
    device: Device,
    front: &[u8],
    back: &[u8],
    number: u64,
    bytes: &mut [u8],
) -> StoreAnswer
    ensures value { result ≡ store_answer (Format.store_answer device front.now back.now number bytes.old) (Format.flush_after number) }
    ensures bytes_after { bytes.new ≡ Format.store_left device front.now back.now number bytes.old }
{
    let a = format::store(device, Copies { front, back }, number, bytes);
    storing::tell(a, format::flush(number))
}
