// Places and signature blocks, as C has them.
ghost use Rattle.std.specs.Prelude.{◌≡◌};
ghost use Rattle.refusal.specs.Tests.{first};
ghost use Rattle.refusal.specs.Refusals.{plain};
ghost use Rattle.layout.specs.Places.{located, blocks_located};
ghost use Rattle.block.specs.Block.{reading};
ghost use Rattle.block.specs.Writing.{write_tests, written};
ghost use Rattle.amseokbin.specs.Answers.{blocks_answer, no_copy_map, no_map, places_answer, no_device, no_entry, no_block, block_of, block_answer, fields_from};

use crate::{Block, BlockAnswer, BlocksAnswer, PlacesAnswer};
use block::BlockFields;
use layout::{CopyMap, Device, DeviceMap};
use refusal::Refusal;

// The sectors of the two signature blocks of a drive with so many sectors.
#[unsafe(no_mangle)]
pub extern "C" fn amseokbin_locate_blocks(sectors: u64) -> BlocksAnswer
    ensures { result ≡ blocks_answer (blocks_located sectors) }
{
    match layout::locate_blocks(sectors) {
        Ok(b) => BlocksAnswer {
            refusal: refusal::plain(0),
            front: b.front,
            back: b.back,
        },
        Err(r) => BlocksAnswer {
            refusal: Refusal::from(r),
            front: 0,
            back: 0,
        },
    }
}

// No places.
fn no_copy_map() -> CopyMap
    ensures { result ≡ no_copy_map }
{
    CopyMap {
        header: 0,
        block: 0,
        a: 0,
        b: 0,
        reserved: 0,
    }
}

fn no_map() -> DeviceMap
    ensures { result ≡ no_map }
{
    DeviceMap {
        front: no_copy_map(),
        back: no_copy_map(),
        start: 0,
        end: 0,
    }
}

// Where a device's copies and its data range lie.
#[unsafe(no_mangle)]
pub extern "C" fn amseokbin_places(device: Device) -> PlacesAnswer
    ensures { result ≡ places_answer (located device) }
{
    match layout::locate(device) {
        Ok(map) => PlacesAnswer {
            refusal: refusal::plain(0),
            map,
        },
        Err(r) => PlacesAnswer {
            refusal: Refusal::from(r),
            map: no_map(),
        },
    }
}

// No block: zero in every field.
#[tactic(auto, unfolding(endian::specs::Bytes::zeros))]
pub(super) fn no_block() -> Block
    ensures { result ≡ no_block }
{
    let none = block::holding_of(None);
    Block {
        device: Device {
            sectors: 0,
            metadata: 0,
            reserved: 0,
        },
        a: none,
        b: none,
        pool: [0u8; 32],
        blockdev: [0u8; 32],
    }
}

// A block's numbers with its UUIDs.
pub(super) fn block_of(x: BlockFields, pool: [u8; 32], blockdev: [u8; 32]) -> Block
    ensures { result ≡ block_of x pool blockdev }
{
    Block {
        device: x.device,
        a: block::holding_of(x.a),
        b: block::holding_of(x.b),
        pool,
        blockdev,
    }
}

// Reads a block.
#[unsafe(no_mangle)]
pub extern "C" fn amseokbin_block_read(bytes: &[u8]) -> BlockAnswer
    ensures { result ≡ block_answer (reading bytes.now) }
{
    match block::read(bytes) {
        Ok(x) => BlockAnswer {
            refusal: refusal::plain(0),
            block: block_of(x.fields, x.pool, x.blockdev),
        },
        Err(r) => BlockAnswer {
            refusal: Refusal::from(r),
            block: no_block(),
        },
    }
}

// A block's numbers from C's struct: an entry with zero in all its fields is unused.
fn fields_from(k: Block) -> BlockFields
    ensures { result ≡ fields_from k }
{
    let a = k.a;
    let b = k.b;
    BlockFields {
        device: k.device,
        a: block::entry_of(a.seconds, a.nanoseconds, a.bytes, a.checksum),
        b: block::entry_of(b.seconds, b.nanoseconds, b.bytes, b.checksum),
    }
}

// Writes a block.
#[unsafe(no_mangle)]
pub extern "C" fn amseokbin_block_write(block: Block, bytes: &mut [u8]) -> Refusal
    ensures value { result ≡ plain (first (write_tests bytes.old block.pool block.blockdev (fields_from block))) }
    ensures bytes_after { bytes.new ≡ written bytes.old block.pool block.blockdev (fields_from block) }
{
    let p = block.pool;
    let u = block.blockdev;
    crate::refusal_in(block::write(bytes, &p, &u, fields_from(block)))
}
