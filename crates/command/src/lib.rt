// The command `amseokbin`: finds, checks, shows, formats, mends, updates, keeps and receives the pool metadata of a drive. `entry`
// exports the reading of the command line to a short program in C, which opens the image that it names, and the program `run` does
// what is asked for. What is stored comes from the proved libraries; that the command is safe and ends is proved, and which statuses it
// has. What it prints is tested. Assumes what `io` and `std` do.
#![tactic(auto)]

mod after;
mod arguments;
mod change;
mod check;
mod copies;
mod create;
mod facts;
mod files;
mod find;
mod help;
mod image;
mod keep;
mod picture;
mod pieces;
mod repair;
mod run;
mod say;
mod sentences;
mod sets;
mod show;
mod statuses;
mod storing;

ghost use Rattle.std.specs.Prelude.{◌≤◌};

use arguments::{Request, Word, Wrong};
use block::Time;
use image::Drive;
use run::Given;
use statuses::Status;
use std::fmt::InlineText;
use std::fs::{File, OpenOptions};
use std::io::{Error, Stderr, Stdin, Stdout};
use std::random::RandomSource;
use std::rt::Files;

// How the image is opened.
#[derive(Clone, Copy, PartialEq, Eq)]
enum Access {
    Read,
    Write,
}

// What the command line wants: nothing more, and the command has this status; the command with no image; or the image, argument number
// `image`, open.
#[derive(Clone, Copy)]
enum Want {
    Nothing(Status),
    NoImage,
    Image { access: Access, image: usize },
}

// The same in numbers, which the C interface has: with access 0 nothing more; with 1 that the image is opened for reading, with 2 for
// writing. With image 0 no image is opened.
#[derive(Clone, Copy)]
pub struct Asked {
    pub status: u32,
    pub access: u32,
    pub image: u64,
}

// An image that is open by a descriptor.
#[derive(Clone, Copy)]
struct Descriptor {
    number: u64,
    access: Access,
}

// What the machine gives: the access, 2 for writing, and the descriptor by which the image is open (0 where none is), the terminal's
// columns (0 where there is none), and the time.
#[derive(Clone, Copy)]
pub struct Machine {
    pub access: u64,
    pub image: u64,
    pub columns: u64,
    pub seconds: u64,
    pub nanoseconds: u64,
}

// The three standard streams.
#[derive(Clone, Copy)]
pub struct Streams {
    pub input: Stdin,
    pub output: Stdout,
    pub errors: Stderr,
}

// How the image is opened for a request. A dry run only reads.
fn access_of(p: Request<'_>) -> Access {
    if p.word.writes() && !p.dry {
        Access::Write
    } else {
        Access::Read
    }
}

// What a request wants, whose values have to be what they are for.
fn wanted(p: Request<'_>) -> Want {
    if p.help || matches!(p.word, Word::Help | Word::Version | Word::Receive) {
        return Want::NoImage;
    }
    if run::check_values(p).is_err() {
        return Want::Nothing(help::wrong(Wrong::Use(p)));
    }
    Want::Image {
        access: access_of(p),
        image: p.image.map_or(0, |image| image.number),
    }
}

// The number of an access.
fn number_of(access: Access) -> u32
    ensures { result ≤ 2 }
{
    match access {
        Access::Read => 1,
        Access::Write => 2,
    }
}

// What is wanted, in numbers.
fn numbers(want: Want) -> Asked
    ensures { (result.status ≤ 3) × (result.access ≤ 2) }
{
    match want {
        Want::Nothing(status) => Asked {
            status: u32::from(status),
            access: 0,
            image: 0,
        },
        Want::NoImage => Asked {
            status: 0,
            access: number_of(Access::Read),
            image: 0,
        },
        Want::Image { access, image } => Asked {
            status: 0,
            access: number_of(access),
            image: image as u64,
        },
    }
}

// Reads the command line, all arguments one after the other, each ended by a zero byte. What is wrong with it is said.
pub fn read_request(line: &[u8]) -> Asked
    ensures { (result.status ≤ 3) × (result.access ≤ 2) }
{
    numbers(match arguments::asked(line) {
        Ok(p) => wanted(p),
        Err(why) => Want::Nothing(help::wrong(why)),
    })
}

// A number where it is not 0.
fn some(n: u64) -> Option<u64> {
    if n == 0 { None } else { Some(n) }
}

// The access with a number: 2 for writing.
fn access_numbered(n: u64) -> Access {
    if n == 2 { Access::Write } else { Access::Read }
}

impl Machine {
    // The image, where one is open.
    fn descriptor(self) -> Option<Descriptor> {
        let access = access_numbered(self.access);
        some(self.image).map(|number| Descriptor { number, access })
    }

    // The time, with nanoseconds below a second.
    fn now(self) -> Time {
        Time {
            seconds: self.seconds,
            nanoseconds: (self.nanoseconds % 1000000000) as u32,
        }
    }
}

// What a program in C says in place of the command's name: five numbers with blanks between them.
fn read_machine(line: &[u8]) -> Option<Machine> {
    let s = arguments::argument(line, 0);
    Some(Machine {
        access: number_at(s, 0)?,
        image: number_at(s, 1)?,
        columns: number_at(s, 2)?,
        seconds: number_at(s, 3)?,
        nanoseconds: number_at(s, 4)?,
    })
}

// Number i of numbers with blanks between them.
fn number_at(s: &[u8], i: usize) -> Option<u64> {
    words::number(s.split(|c| *c == b' ').nth(i)?)
}

// Does what the command line wants without an image.
fn answer(streams: Streams, line: &[u8]) -> Status {
    let out = streams.output;
    let p = match arguments::asked(line) {
        Ok(p) => p,
        Err(why) => return help::wrong(why),
    };
    if p.help {
        return help::print_word(out, p.word);
    }
    match p.word {
        Word::Help => help::run(out, p.image.map(|image| image.name)),
        Word::Version => help::version(out),
        Word::Receive => pieces::run(streams.input, out, streams.errors, p.both),
        _ => help::wrong(Wrong::Name(arguments::argument(line, 1))),
    }
}

// Does what the command line wants with the open image, and answers the command's status. A line that `read_request` refuses is carried
// out as far as it was read.
pub fn carry_out<R: Files + RandomSource>(
    rt: &R,
    streams: Streams,
    image: &File,
    line: &[u8],
    m: Machine,
) -> u32
    ensures { result ≤ 3 }
{
    let drive = Drive {
        image,
        out: streams.output,
    };
    let g = Given {
        drive,
        name: arguments::argument(line, 0),
        columns: some(m.columns),
        now: m.now(),
    };
    u32::from(run::run(rt, arguments::asked_so_far(line), g))
}

// The image, open by a descriptor that is already there.
fn opened<R: Files<File = File>>(rt: &R, d: Descriptor) -> Result<File, Error> {
    let n = d.number;
    let path: InlineText<40> = InlineText::of(format_args!("/proc/self/fd/{n}"));
    let mut how = OpenOptions::new();
    how.read(true).write(d.access == Access::Write);
    how.open(rt, path.as_str())
}

// Says why the image cannot be opened; the status.
fn refuse_image(line: &[u8], e: Error) -> Status {
    let name = arguments::argument(line, 0);
    let path = arguments::asked_so_far(line).map_or(name, |p| p.path(name));
    say::fail(path, e);
    Status::Failed
}

// Does what the command line wants with what the machine gives, which opens the image where the command line has one. A command line
// begins with that; with another one it says that it is a part of the command. Answers the command's status.
pub fn perform<R: Files<File = File> + RandomSource>(rt: &R, streams: Streams, line: &[u8]) -> u32
    ensures { result ≤ 3 }
{
    let Some(m) = read_machine(line) else {
        io::write_all(
            2,
            b"amseokbin: this program is a part of the command, which ./build makes\n",
        );
        return u32::from(Status::Failed);
    };
    let Some(d) = m.descriptor() else {
        return u32::from(answer(streams, line));
    };
    match opened(rt, d) {
        Ok(image) => carry_out(rt, streams, &image, line, m),
        Err(e) => u32::from(refuse_image(line, e)),
    }
}
