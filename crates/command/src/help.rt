// The command's help: a page for all words, and a page for each. Assumes what `io` and `std` do.
use crate::arguments;
use crate::arguments::{Word, Wrong};
use crate::say::{Printed, complain, put};
use crate::statuses::Status;
use std::io::Stdout;

// Prints the page for all words. Blanks at the start of a line stand before the end of the one above: after it they are left out.
fn overview(out: Stdout) -> Printed {
    put(
        out,
        b"usage: amseokbin WORD IMAGE ..   IMAGE is a drive image or a block device\n\
\n\
Finds, checks, updates and repairs the pool metadata of a drive in the Stratis 0.6 layout.\n\
\n  \
find IMAGE                 the newest whole record, and whose pool it is\n  \
check IMAGE                both copies, all four areas, and what mend would do; only reads\n  \
show IMAGE                 the pool for people: segments, free room, a picture\n  \
format IMAGE               a new pool with an empty record\n  \
mend IMAGE                 brings the two copies in step\n  \
allocate IMAGE KIND SIZE   a new segment, in the first free run that is long enough\n  \
release IMAGE POSITION     gives a segment's room back\n",
    )?;
    put(
        out,
        b"  head IMAGE up|back         moves the record's head to kind 17, or back to kind 16\n  \
mark IMAGE BLOCKS          sets the low water mark, which a head of kind 17 has\n  \
update IMAGE RECORD        puts the record in a file in place of the present one\n  \
record IMAGE               the present record's bytes\n  \
dump IMAGE                 both copies' bytes, as the program dump reads them\n  \
receive [both]             a copy's bytes from standard input: its block, areas and present record\n  \
backup IMAGE FILE          keeps both copies in a file\n  \
restore IMAGE FILE         puts them back\n  \
help [WORD]                this page, or a word's\n  \
version\n\
\n",
    )?;
    put(
        out,
        b"Status: 0 done and all is well; 1 refused, or check or receive found something wrong; 2 wrong\n\
usage; 3 something could not be read or written. Words that write to the image take --dry-run.\n",
    )
}

// The usage of a word.
fn usage_of(w: Word) -> &'static [u8] {
    match w {
        Word::Find => b"find IMAGE\n",
        Word::Check => b"check IMAGE\n",
        Word::Show => b"show IMAGE [--plain] [--width N]\n",
        Word::Format =>
            b"format IMAGE [--pool UUID] [--device UUID] [--metadata SIZE] [--reserved SIZE] [--block SIZE] [--low-water BLOCKS] [--dry-run] [replace]\n",
        Word::Mend => b"mend IMAGE [--dry-run] [unreadable]\n",
        Word::Allocate => b"allocate IMAGE KIND SIZE [--dry-run]\n",
        Word::Release => b"release IMAGE POSITION [--dry-run]\n",
        Word::Head => b"head IMAGE up|back [--dry-run]\n",
        Word::Mark => b"mark IMAGE BLOCKS [--dry-run]\n",
        Word::Update => b"update IMAGE RECORD [--dry-run]\n",
        Word::Record => b"record IMAGE\n",
        Word::Dump => b"dump IMAGE\n",
        Word::Receive => b"receive [both]\n",
        Word::Backup => b"backup IMAGE FILE\n",
        Word::Restore => b"restore IMAGE FILE [--dry-run] [replace]\n",
        Word::Help => b"help [WORD]\n",
        Word::Version => b"version\n",
    }
}

// A line on standard error with a usage.
fn say_usage(usage: &[u8]) {
    complain(b"usage: amseokbin ");
    complain(usage);
}

// The page of a word; none where that for all words is it.
fn page_of(w: Word) -> Option<&'static [u8]> {
    match w {
        Word::Find => Some(
            b"usage: amseokbin find IMAGE\n\
\n\
Prints what discovery answers: `found`, the copy (front or back), the area (a or b), the record's bytes, its seconds and\n\
nanoseconds, and `both`, or the refusal number of the other copy's block; then whose pool it is. `perhaps` stands in\n\
place of `found` where a sector that matters could not be read. Standard error says what is wrong: copies not in step,\n\
a newer record that is torn, a record that is no segment record.\n",
        ),
        Word::Check => Some(
            b"usage: amseokbin check IMAGE\n\
\n\
Reads both copies and prints for each its block and its two areas: whole, torn, unused, unread or unknown, the bytes\n\
and the time of each; what is found; whether the record is accepted, and its head; whether the copies are in step; what\n\
mend would do. Status 0 only where all is well.\n",
        ),
        Word::Show => Some(
            b"usage: amseokbin show IMAGE [--plain] [--width N]\n\
\n\
Shows the pool for people: identity, time, head, every segment, what is free, and a picture of the drive, as wide as the\n\
terminal or N characters, 20 to 240. --plain prints one key=value a line instead, for scripts.\n",
        ),
        Word::Format => Some(
            b"usage: amseokbin format IMAGE [--pool UUID] [--device UUID] [--metadata SIZE] [--reserved SIZE] [--block SIZE]\n                        \
[--low-water BLOCKS] [--dry-run] [replace]\n\
\n\
Makes a new pool with a record that has no segments. Where the two ends of the drive are not readable and zero, nothing\n\
is written, unless the word replace is given. A UUID is 32 hex digits, with or without dashes; where none is given it is\n\
made at random. The metadata size is 2040 sectors, the reserved size 0 and the block size 128 where they are not given.\n\
A SIZE is in sectors, or has K, M, G or T behind it. With --low-water the record's head is of kind 17, with that low water\n\
mark, 0 to 4294967295; without it of kind 16, which has none.\n",
        ),
        Word::Mend => Some(
            b"usage: amseokbin mend IMAGE [--dry-run] [unreadable]\n\
\n\
Brings the two copies in step: keeps the copy with the newest whole record and rewrites the other. --dry-run lists the\n\
stores and writes nothing. The word unreadable goes on where sectors of the copy that is rewritten could not be read;\n\
all that matters of the copy that is kept has to be readable.\n",
        ),
        Word::Allocate => Some(
            b"usage: amseokbin allocate IMAGE KIND SIZE [--dry-run]\n\
\n\
Adds a segment at the start of the first free run that is long enough, by an update that survives a power cut. KIND is\n\
thin-metadata, thin-data, spare or metadata-volume, or 1 to 4; SIZE is in sectors, or has K, M, G or T behind it.\n",
        ),
        Word::Release => Some(
            b"usage: amseokbin release IMAGE POSITION [--dry-run]\n\
\n\
Removes the segment at a position, counted from 0 as show lists them, by an update that survives a power cut.\n",
        ),
        Word::Head => Some(
            b"usage: amseokbin head IMAGE up|back [--dry-run]\n\
\n\
Moves the record's head, by an update that survives a power cut: up to kind 17, with the low water mark 0, or back to kind\n\
16, which has no mark. A mark other than 0 is not lost: amseokbin mark IMAGE 0 comes first. Segments and block size stay.\n\
Where the head is of that kind already, nothing is stored.\n",
        ),
        Word::Mark => Some(
            b"usage: amseokbin mark IMAGE BLOCKS [--dry-run]\n\
\n\
Sets the low water mark, 0 to 4294967295 blocks, by an update that survives a power cut. Only a head of kind 17 has one:\n\
amseokbin head IMAGE up makes it. Where the mark is that already, nothing is stored.\n",
        ),
        Word::Update => Some(
            b"usage: amseokbin update IMAGE RECORD [--dry-run]\n\
\n\
Puts the record in the file RECORD in place of the present one, in four groups of stores with a flush after each: whenever\n\
power goes, the old record or the new one is found. --dry-run lists the stores.\n",
        ),
        Word::Record => Some(
            b"usage: amseokbin record IMAGE\n\nPrints the present record's bytes, for a file.\n",
        ),
        Word::Dump => Some(
            b"usage: amseokbin dump IMAGE\n\nPrints both copies' bytes, front and back, as the program dump reads them.\n",
        ),
        Word::Receive => Some(
            b"usage: amseokbin receive [both]\n\
\n\
Reads a copy from standard input, in whatever pieces it comes, and keeps none of it. Prints its block, whose pool it is, its\n\
two areas as check does, and its present record, each line behind `copy`. With the word both a front and then a back, as\n\
dump prints them, the lines behind `front` and `back`. Status 0 only where each block is accepted and has a record, nothing\n\
newer is torn, no byte more comes, and two copies are of one drive, with records of one time, length and checksum; whether\n\
they are in step only check can tell. From a terminal it ends with the last byte; on one, standard error says how many came.\n",
        ),
        Word::Backup => Some(
            b"usage: amseokbin backup IMAGE FILE\n\nKeeps both copies in a new file. Do that before any repair.\n",
        ),
        Word::Restore => Some(
            b"usage: amseokbin restore IMAGE FILE [--dry-run] [replace]\n\
\n\
Puts both copies back as a backup has them. Where the drive has no accepted block of that pool and device, nothing is\n\
written, unless the word replace is given.\n",
        ),
        Word::Help | Word::Version => None,
    }
}

// Prints the page of a word; its status.
pub(crate) fn print_word(out: Stdout, w: Word) -> Status {
    Status::printed(match page_of(w) {
        Some(page) => put(out, page),
        None => overview(out),
    })
}

// The word `help`, with the name of a word where one is given.
pub(crate) fn run(out: Stdout, name: Option<&[u8]>) -> Status {
    let Some(name) = name else {
        return Status::printed(overview(out));
    };
    match arguments::word_of(name) {
        Some(w) => print_word(out, w),
        None => wrong(Wrong::Name(name)),
    }
}

// The version.
pub(crate) fn version(out: Stdout) -> Status {
    Status::printed(put(out, b"amseokbin 0.4, for the Stratis 0.6 layout\n"))
}

// A command line that is wrong, of which the usage is said, and which word is not known where none is.
pub(crate) fn wrong(why: Wrong<'_>) -> Status {
    match why {
        Wrong::Use(p) => say_usage(usage_of(p.word)),
        Wrong::Name(name) => {
            if name.is_empty() {
                complain(b"amseokbin: a word is missing\n");
            } else {
                complain(b"amseokbin: no such word: ");
                complain(name);
                complain(b"\n");
            }
            say_usage(b"WORD IMAGE ..; amseokbin help lists the words\n");
        }
    }
    Status::Usage
}
