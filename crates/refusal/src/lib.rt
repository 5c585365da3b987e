// Why a call refuses, in one place: the refusal numbers (docs/FORMAT.md, 'Refusal numbers') and the words of each. A number that a later
// paper adds gets its reason and its arms below, its name in specs/Numbers.antt, its place in specs/Reasons.antt and its line in
// specs/Words.antt.
#![tactic(auto)]

ghost use Rattle.std.specs.Prelude.{◌≡◌};
ghost use Rattle.refusal.specs.Words.{laid, words_of};
ghost use Rattle.refusal.specs.Refusals.{plain};
ghost use Rattle.refusal.specs.Reasons.{refusal_of};

// Why a call refuses. Two segments that clash come with their positions, counted from 0.
#[derive(Clone, Copy, PartialEq, Eq)]
pub enum Reason {
    SliceSize,
    Signature,
    BlockChecksum,
    DeviceSize,
    NotZero,
    UuidByte,
    MetadataSize,
    ReservedSize,
    AreaEntry,
    NoBlock,
    Identity,
    NoRecord,
    TwoRecords,
    NotLater,
    RecordLength,
    NotInStep,
    RecordForm,
    SegmentPlace,
    SegmentClash(u64, u64),
    NoRoom,
    RecordFull,
    NoSegment,
    NoStore,
    HeadMove,
}

// A refusal as C reads it: its number, 0 for none, and what stands beside it. Beside 19 these are the positions of the two segments that
// clash; beside every other number both are zero.
#[repr(C)]
#[derive(Clone, Copy, PartialEq, Eq)]
pub struct Refusal {
    pub number: u8,
    pub first: u64,
    pub second: u64,
}

// A number with nothing beside it. Not for 19, which has something.
pub fn plain(number: u8) -> Refusal
    ensures { result ≡ plain number }
{
    Refusal {
        number,
        first: 0,
        second: 0,
    }
}

impl From<Reason> for Refusal {
    ghost from_gives = { λ r y. y ≡ refusal_of r };

    fn from(r: Reason) -> Refusal {
        match r {
            Reason::SegmentClash(first, second) => Refusal {
                number: 19,
                first,
                second,
            },
            Reason::SliceSize => plain(1),
            Reason::Signature => plain(2),
            Reason::BlockChecksum => plain(3),
            Reason::DeviceSize => plain(4),
            Reason::NotZero => plain(5),
            Reason::UuidByte => plain(6),
            Reason::MetadataSize => plain(7),
            Reason::ReservedSize => plain(8),
            Reason::AreaEntry => plain(9),
            Reason::NoBlock => plain(10),
            Reason::Identity => plain(11),
            Reason::NoRecord => plain(12),
            Reason::TwoRecords => plain(13),
            Reason::NotLater => plain(14),
            Reason::RecordLength => plain(15),
            Reason::NotInStep => plain(16),
            Reason::RecordForm => plain(17),
            Reason::SegmentPlace => plain(18),
            Reason::NoRoom => plain(20),
            Reason::RecordFull => plain(21),
            Reason::NoSegment => plain(22),
            Reason::NoStore => plain(23),
            Reason::HeadMove => plain(24),
        }
    }
}

// The most bytes that the words of a number have.
pub const WORDS_BYTES: usize = 80;

// Words in ASCII: the first `used` of the bytes; the rest are zero. C reads this struct, by value and with no heap.
#[repr(C)]
#[derive(Clone, Copy)]
pub struct Words {
    pub bytes: [u8; WORDS_BYTES],
    pub used: usize,
}

// Words with the bytes of w, of which there are no more than fit.
#[tactic(auto, unfolding(endian::specs::Bytes::zeros))]
fn lay(w: &[u8]) -> Words
    ensures { result ≡ laid w.now }
{
    let mut bytes = [0u8; WORDS_BYTES];
    endian::put(&mut bytes, 0, w);
    Words {
        bytes,
        used: w.len(),
    }
}

// What a refusal number says: its line of the table of docs/FORMAT.md, 'Refusal numbers'.
pub fn words_of(n: u8) -> Words
    ensures { result ≡ words_of n }
{
    match n {
        0 => lay(b"nothing is refused"),
        1 => lay(b"a lent slice has the wrong size, or is too small for the answer"),
        2 => lay(b"the 16 signature bytes differ"),
        3 => lay(b"the block's CRC differs"),
        4 => lay(b"S too small"),
        5 => lay(b"flags or a zero field not zero"),
        6 => lay(b"a UUID byte not allowed"),
        7 => lay(b"L not allowed"),
        8 => lay(b"R not allowed"),
        9 => lay(b"an area entry breaks a limit, or both used entries have one time"),
        10 => lay(b"neither copy's block is accepted"),
        11 => lay(b"both accepted; S, L, R or a UUID differ"),
        12 => lay(b"no whole record in any accepted copy"),
        13 => lay(b"the newest whole records of the two copies have one time and different bytes"),
        14 => lay(b"update time not later than the present record's"),
        15 => lay(b"record length 0 or over the limit"),
        16 => lay(b"update asked while the copies are not in step"),
        17 => lay(b"record malformed, or a kind not known"),
        18 => lay(b"a segment empty or not wholly in the data range; or 0 sectors asked for"),
        19 => lay(b"two segments share a sector"),
        20 => lay(b"no free run is long enough"),
        21 => lay(b"the record already holds the most segments"),
        22 => lay(b"no segment has that position"),
        23 => lay(b"no store has that number"),
        24 => lay(b"moving the head would lose its low water mark"),
        25..=255 => lay(b"a number that is not known"),
    }
}
