// What each word does with an open image. Assumes what `io` and `std` do.
use crate::arguments::{Request, Word};
use crate::change::{Way, Wish};
use crate::copies::Look;
use crate::create::Wanted;
use crate::image::Drive;
use crate::say::complain;
use crate::statuses::Status;
use crate::{arguments, change, check, copies, create, find, keep, repair, show};
use block::Time;
use heads::Change;
use std::random::RandomSource;
use std::rt::Files;

// What the machine gives: the open image, the command's name, which stands in place of an argument that is not given, the terminal's
// columns where there is a terminal, and the time.
#[derive(Clone, Copy)]
pub(crate) struct Given<'a> {
    pub drive: Drive<'a>,
    pub name: &'a [u8],
    pub columns: Option<u64>,
    pub now: Time,
}

// A value that is not what it has to be, which was said.
#[derive(Clone, Copy)]
pub(crate) struct Bad;

// What an argument says, where it says anything; else it is said what it has to be.
fn said<T>(s: &[u8], value: Option<T>, what: &str) -> Result<T, Bad> {
    value.ok_or_else(|| {
        arguments::bad_value(s, what);
        Bad
    })
}

// An argument as a size in sectors.
fn size(s: &[u8]) -> Result<u64, Bad> {
    said(
        s,
        words::sectors(s),
        "is no size: sectors, or a number with K, M, G or T",
    )
}

// An argument as a plain number.
fn number(s: &[u8]) -> Result<u64, Bad> {
    said(s, words::number(s), "is no number")
}

// An argument as a kind.
fn kind(s: &[u8]) -> Result<u16, Bad> {
    said(
        s,
        words::kind(s),
        "is no kind: thin-metadata, thin-data, spare, metadata-volume, or 1 to 4",
    )
}

// An argument as a UUID.
fn uuid(s: &[u8]) -> Result<[u8; 32], Bad> {
    said(
        s,
        words::uuid(s),
        "is no UUID: 32 hex digits, or 8-4-4-4-12 with dashes",
    )
}

// An argument as a low water mark in blocks.
fn blocks(s: &[u8]) -> Result<u32, Bad> {
    u32::try_from(number(s)?).map_err(|_| {
        complain(b"amseokbin: a low water mark is 0 to 4294967295 blocks\n");
        Bad
    })
}

// An argument as the width of the picture.
fn width(s: &[u8]) -> Result<u64, Bad> {
    let n = number(s)?;
    if !(20..=240).contains(&n) {
        complain(b"amseokbin: a width is 20 to 240\n");
        return Err(Bad);
    }
    Ok(n)
}

// An argument as the way that a head is moved.
fn head_move(s: &[u8]) -> Result<Change, Bad> {
    let change = match s {
        b"up" => Some(Change::Up),
        b"back" => Some(Change::Back),
        _ => None,
    };
    said(s, change, "is neither up nor back")
}

// An option's value, where it is given.
fn optional<T, F: FnOnce(&[u8]) -> Result<T, Bad>>(
    s: Option<&[u8]>,
    read: F,
) -> Result<Option<T>, Bad>
    requires { F.IsAlwaysCallable read }
{
    match s {
        Some(s) => Ok(Some(read(s)?)),
        None => Ok(None),
    }
}

// The same of the words that change the record as is asked.
fn check_wish(p: Request<'_>) -> Result<(), Bad> {
    let second = p.second.unwrap_or(&[]);
    let third = p.third.unwrap_or(&[]);
    match p.word {
        Word::Allocate => {
            let kind = kind(second);
            let sectors = size(third);
            kind?;
            sectors?;
        }
        Word::Release => {
            number(second)?;
        }
        Word::Head => {
            head_move(second)?;
        }
        Word::Mark => {
            blocks(second)?;
        }
        _ => {}
    }
    Ok(())
}

// Reads the values on the command line, all of them, so that each one that is not what it has to be is said. Nothing is opened before.
pub(crate) fn check_values(p: Request<'_>) -> Result<(), Bad> {
    let metadata = optional(p.metadata, size);
    let reserved = optional(p.reserved, size);
    let block = optional(p.block, size);
    let mark = optional(p.low_water, blocks);
    let pool = optional(p.pool, uuid);
    let device = optional(p.device, uuid);
    let width = optional(p.width, width);
    let wish = check_wish(p);
    metadata?;
    reserved?;
    block?;
    mark?;
    pool?;
    device?;
    width?;
    wish
}

// A number that is given, which is 0 where it is not what it has to be.
fn value<T: Default + Drop, F: FnOnce(&[u8]) -> Result<T, Bad>>(
    s: Option<&[u8]>,
    read: F,
) -> Option<T>
    requires { F.IsAlwaysCallable read }
{
    optional(s, read).unwrap_or(Some(T::default()))
}

fn digit(x: u8) -> u8 {
    let d = x % 16;
    if d < 10 { d + b'0' } else { d - 10 + b'a' }
}

// 32 random digits.
fn made_name<R: RandomSource>(rt: &R) -> Option<[u8; 32]> {
    let mut bytes = [0u8; 32];
    if rt.fill_bytes(&mut bytes).is_err() {
        complain(b"amseokbin: no random bytes for a UUID\n");
        return None;
    }
    for x in bytes.iter_mut() {
        *x = digit(*x);
    }
    Some(bytes)
}

// A UUID that is given, or a new one.
fn name_or_made<R: RandomSource>(rt: &R, s: Option<&[u8]>) -> Option<[u8; 32]> {
    match s {
        Some(s) => uuid(s).ok(),
        None => made_name(rt),
    }
}

// The word `format`.
fn format_word<R: RandomSource>(rt: &R, p: Request<'_>, g: Given<'_>) -> Status {
    let pool = name_or_made(rt, p.pool);
    let device = name_or_made(rt, p.device);
    let (Some(pool), Some(device)) = (pool, device) else {
        return Status::Failed;
    };
    let w = Wanted {
        metadata: value(p.metadata, size).unwrap_or(2040),
        reserved: value(p.reserved, size).unwrap_or(0),
        block: value(p.block, size).unwrap_or(128),
        mark: value(p.low_water, blocks),
        replace: p.replace,
        dry: p.dry,
        now: g.now,
        pool,
        device,
    };
    create::run(p.path(g.name), g.drive, w)
}

// What is asked of the record; nothing where a head is moved neither up nor back.
fn wish_of(p: Request<'_>, name: &[u8]) -> Option<Wish> {
    let second = p.second.unwrap_or(name);
    match p.word {
        Word::Allocate => {
            let kind = kind(second).unwrap_or(0);
            Some(Wish::Allocate(kind, value(p.third, size).unwrap_or(0)))
        }
        Word::Release => Some(Wish::Release(value(p.second, number).unwrap_or(0))),
        Word::Head => head_move(second).ok().map(Wish::Head),
        Word::Mark => {
            let mark = value(p.second, blocks).unwrap_or(0);
            Some(Wish::Head(Change::Mark(mark)))
        }
        _ => None,
    }
}

// The words that read the copies first.
fn with_look<R: Files>(rt: &R, p: Request<'_>, g: Given<'_>, look: Look<'_>) -> Status {
    let file = p.second.unwrap_or(g.name);
    let way = Way {
        now: g.now,
        dry: p.dry,
    };
    match p.word {
        Word::Find => find::run(look),
        Word::Check => check::run(look),
        Word::Show => {
            let columns = value(p.width, number).or(g.columns).unwrap_or(80);
            show::run(look, p.plain, columns)
        }
        Word::Mend => repair::run(look, p.dry, p.unreadable),
        Word::Allocate | Word::Release | Word::Head | Word::Mark => {
            change::wish_word(look, way, wish_of(p, g.name))
        }
        Word::Record => keep::record_word(look),
        Word::Dump => keep::dump_word(look),
        Word::Update => change::update_word(rt, look, way, file),
        Word::Backup => keep::backup_word(rt, look, file),
        Word::Restore => keep::restore_word(rt, look, p.dry, p.replace, file),
        Word::Format | Word::Receive | Word::Help | Word::Version => Status::Usage,
    }
}

// Reads the copies of the image and does what a word asks for; where none is known, nothing more.
fn read_copies<R: Files>(rt: &R, p: Option<Request<'_>>, g: Given<'_>) -> Status {
    let path = p.map_or(g.name, |p| p.path(g.name));
    let mut front = copies::BLANK;
    let mut back = copies::BLANK;
    let places = copies::read(g.drive.image, &mut front, &mut back);
    let look = copies::known(path, g.drive, places, &front, &back);
    copies::note_unread(look);
    match p {
        Some(p) => with_look(rt, p, g, look),
        None => Status::Usage,
    }
}

// Does what is asked for; its status.
pub(crate) fn run<R: Files + RandomSource>(rt: &R, p: Option<Request<'_>>, g: Given<'_>) -> Status {
    match p {
        Some(p) if p.word == Word::Format => format_word(rt, p, g),
        _ => read_copies(rt, p, g),
    }
}
