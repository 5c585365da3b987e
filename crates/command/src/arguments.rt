// The command line: its word, its arguments and its options. It is lent with all its arguments one after the other, each ended by a
// zero byte, the program's name first. A word or an option that is not known is said, and then nothing is opened.
// Assumes what `io` does.
use crate::say::{complain, complain_text};
use std::fmt::Display;

// The command's words.
#[derive(Clone, Copy, PartialEq, Eq)]
pub(crate) enum Word {
    Find,
    Check,
    Show,
    Format,
    Mend,
    Allocate,
    Release,
    Head,
    Mark,
    Update,
    Record,
    Dump,
    Receive,
    Backup,
    Restore,
    Help,
    Version,
}

// The most bytes of an argument.
const LONGEST: usize = 4096;

// What ends an argument.
const END: u8 = 0;

// What may follow a word: how many arguments have to, and how many may; whether it writes to the image and so takes --dry-run, which last
// words it takes, and whether it has the options of `format` or of `show`.
#[derive(Clone, Copy)]
struct Rules {
    least: usize,
    most: usize,
    writes: bool,
    replace: bool,
    unreadable: bool,
    both: bool,
    sizes: bool,
    plain: bool,
}

// The options with a value.
#[derive(Clone, Copy, PartialEq, Eq)]
enum Setting {
    Pool,
    Device,
    Metadata,
    Reserved,
    Block,
    LowWater,
    Width,
}

// The image's name, and which argument of the command line it is.
#[derive(Clone, Copy)]
pub(crate) struct Image<'a> {
    pub number: usize,
    pub name: &'a [u8],
}

// What is asked for: a word, its arguments as they stand on the command line, and its options.
#[derive(Clone, Copy)]
pub(crate) struct Request<'a> {
    pub word: Word,
    pub help: bool,
    pub dry: bool,
    pub plain: bool,
    pub replace: bool,
    pub unreadable: bool,
    pub both: bool,
    // The first argument, for `help` a word.
    pub image: Option<Image<'a>>,
    pub second: Option<&'a [u8]>,
    pub third: Option<&'a [u8]>,
    pub pool: Option<&'a [u8]>,
    pub device: Option<&'a [u8]>,
    pub metadata: Option<&'a [u8]>,
    pub reserved: Option<&'a [u8]>,
    pub block: Option<&'a [u8]>,
    pub low_water: Option<&'a [u8]>,
    pub width: Option<&'a [u8]>,
}

// Why a command line is wrong: no word is known by its name, or what is wrong with what follows was said; then the request as far as it
// was read.
#[derive(Clone, Copy)]
pub(crate) enum Wrong<'a> {
    Name(&'a [u8]),
    Use(Request<'a>),
}

// A command line of which a part was read: whether that part is wrong, how many arguments were given, and the option whose value comes
// next.
#[derive(Clone, Copy)]
struct Part<'a> {
    request: Request<'a>,
    wrong: bool,
    given: usize,
    waiting: Option<Setting>,
}

// The word that these bytes are.
pub(crate) fn word_of(s: &[u8]) -> Option<Word> {
    match s {
        b"find" => Some(Word::Find),
        b"check" => Some(Word::Check),
        b"show" => Some(Word::Show),
        b"format" => Some(Word::Format),
        b"mend" => Some(Word::Mend),
        b"allocate" => Some(Word::Allocate),
        b"release" => Some(Word::Release),
        b"head" => Some(Word::Head),
        b"mark" => Some(Word::Mark),
        b"update" => Some(Word::Update),
        b"record" => Some(Word::Record),
        b"dump" => Some(Word::Dump),
        b"receive" => Some(Word::Receive),
        b"backup" => Some(Word::Backup),
        b"restore" => Some(Word::Restore),
        b"help" | b"--help" | b"-h" => Some(Word::Help),
        b"version" | b"--version" => Some(Word::Version),
        _ => None,
    }
}

// The rules of a word that takes so many arguments and only reads.
fn reading(arguments: usize) -> Rules {
    Rules {
        least: arguments,
        most: arguments,
        writes: false,
        replace: false,
        unreadable: false,
        both: false,
        sizes: false,
        plain: false,
    }
}

// The rules of a word that takes so many arguments and writes.
fn writing(arguments: usize) -> Rules {
    Rules {
        writes: true,
        ..reading(arguments)
    }
}

impl Word {
    fn rules(self) -> Rules {
        match self {
            Word::Find | Word::Check | Word::Record | Word::Dump => reading(1),
            Word::Show => Rules {
                plain: true,
                ..reading(1)
            },
            Word::Format => Rules {
                replace: true,
                sizes: true,
                ..writing(1)
            },
            Word::Mend => Rules {
                unreadable: true,
                ..writing(1)
            },
            Word::Allocate => writing(3),
            Word::Release | Word::Head | Word::Mark | Word::Update => writing(2),
            Word::Receive => Rules {
                both: true,
                ..reading(0)
            },
            Word::Backup => reading(2),
            Word::Restore => Rules {
                replace: true,
                ..writing(2)
            },
            Word::Help => Rules {
                most: 1,
                ..reading(0)
            },
            Word::Version => reading(0),
        }
    }

    // Whether the word writes to the image.
    pub(crate) fn writes(self) -> bool {
        self.rules().writes
    }
}

// A request for a word, with nothing else given.
fn begun<'a>(word: Word) -> Request<'a> {
    Request {
        word,
        help: false,
        dry: false,
        plain: false,
        replace: false,
        unreadable: false,
        both: false,
        image: None,
        second: None,
        third: None,
        pool: None,
        device: None,
        metadata: None,
        reserved: None,
        block: None,
        low_water: None,
        width: None,
    }
}

// The option with a value that these bytes are.
fn setting_of(r: Rules, s: &[u8]) -> Option<Setting> {
    match s {
        b"--width" if r.plain => Some(Setting::Width),
        b"--pool" if r.sizes => Some(Setting::Pool),
        b"--device" if r.sizes => Some(Setting::Device),
        b"--metadata" if r.sizes => Some(Setting::Metadata),
        b"--reserved" if r.sizes => Some(Setting::Reserved),
        b"--block" if r.sizes => Some(Setting::Block),
        b"--low-water" if r.sizes => Some(Setting::LowWater),
        _ => None,
    }
}

// Says which argument is not known.
fn say_unknown(s: &[u8]) {
    complain(b"amseokbin: not known: ");
    complain(s);
    complain(b"\n");
}

impl<'a> Request<'a> {
    // With the value of an option.
    fn with_setting(self, setting: Setting, s: &'a [u8]) -> Request<'a> {
        let value = Some(s);
        match setting {
            Setting::Pool => Request {
                pool: value,
                ..self
            },
            Setting::Device => Request {
                device: value,
                ..self
            },
            Setting::Metadata => Request {
                metadata: value,
                ..self
            },
            Setting::Reserved => Request {
                reserved: value,
                ..self
            },
            Setting::Block => Request {
                block: value,
                ..self
            },
            Setting::LowWater => Request {
                low_water: value,
                ..self
            },
            Setting::Width => Request {
                width: value,
                ..self
            },
        }
    }

    // With one more argument, number i on the command line, of which so many were given before.
    fn with_argument(self, given: usize, s: &'a [u8], i: usize) -> Request<'a> {
        match given {
            0 => Request {
                image: Some(Image { number: i, name: s }),
                ..self
            },
            1 => Request {
                second: Some(s),
                ..self
            },
            _ => Request {
                third: Some(s),
                ..self
            },
        }
    }

    // The image's name; the command's where none is given.
    pub(crate) fn path(self, name: &'a [u8]) -> &'a [u8] {
        self.image.map_or(name, |image| image.name)
    }
}

impl<'a> Part<'a> {
    fn with(self, request: Request<'a>) -> Part<'a> {
        Part { request, ..self }
    }

    fn failed(self) -> Part<'a> {
        Part {
            wrong: true,
            ..self
        }
    }

    // With one more argument that is no option, number i on the command line.
    fn with_argument(self, s: &'a [u8], i: usize) -> Part<'a> {
        let p = self.request;
        let r = p.word.rules();
        match s {
            b"replace" if r.replace => self.with(Request { replace: true, ..p }),
            b"unreadable" if r.unreadable => self.with(Request {
                unreadable: true,
                ..p
            }),
            b"both" if r.both && !p.both => self.with(Request { both: true, ..p }),
            _ if self.given < r.most => Part {
                request: p.with_argument(self.given, s, i),
                given: self.given.saturating_add(1),
                ..self
            },
            _ => {
                say_unknown(s);
                self.failed()
            }
        }
    }

    // With one more option.
    fn with_option(self, s: &'a [u8]) -> Part<'a> {
        let p = self.request;
        let r = p.word.rules();
        match s {
            b"--help" | b"-h" => self.with(Request { help: true, ..p }),
            b"--dry-run" if r.writes => self.with(Request { dry: true, ..p }),
            b"--plain" if r.plain => self.with(Request { plain: true, ..p }),
            _ => match setting_of(r, s) {
                Some(setting) => Part {
                    waiting: Some(setting),
                    ..self
                },
                None => {
                    say_unknown(s);
                    self.failed()
                }
            },
        }
    }

    // With argument i of the command line, which is s.
    fn and(self, s: &'a [u8], i: usize) -> Part<'a> {
        if LONGEST < s.len() {
            complain(b"amseokbin: an argument is too long\n");
            return self.failed();
        }
        if let Some(setting) = self.waiting {
            return Part {
                request: self.request.with_setting(setting, s),
                waiting: None,
                ..self
            };
        }
        if s.first() == Some(&b'-') {
            return self.with_option(s);
        }
        self.with_argument(s, i)
    }

    // The request, where the command line has ended and nothing is wrong or missing.
    fn ended(self) -> Result<Request<'a>, Wrong<'a>> {
        let p = self.request;
        if self.wrong {
            return Err(Wrong::Use(p));
        }
        if p.help {
            return Ok(p);
        }
        if self.waiting.is_some() {
            complain(b"amseokbin: an option has no value\n");
            return Err(Wrong::Use(p));
        }
        if self.given < p.word.rules().least {
            complain(b"amseokbin: an argument is missing\n");
            return Err(Wrong::Use(p));
        }
        Ok(p)
    }
}

// An argument by its number; no bytes where it is not given, or too long.
pub(crate) fn argument(line: &[u8], i: usize) -> &[u8] {
    line.split(|x| *x == END)
        .nth(i)
        .filter(|s| s.len() <= LONGEST)
        .unwrap_or(&[])
}

// How many arguments there are.
fn count(line: &[u8]) -> usize {
    line.iter().filter(|x| **x == END).count()
}

// What the command line asks for. Behind a word that is not known nothing is looked at.
pub(crate) fn asked(line: &[u8]) -> Result<Request<'_>, Wrong<'_>> {
    let name = argument(line, 1);
    let Some(word) = word_of(name) else {
        return Err(Wrong::Name(name));
    };
    let mut part = Part {
        request: begun(word),
        wrong: false,
        given: 0,
        waiting: None,
    };
    let arguments = line.split(|x| *x == END).enumerate().take(count(line));
    for (i, s) in arguments.skip(2) {
        part = part.and(s, i);
    }
    part.ended()
}

// The same as far as it was read, where it is wrong too; nothing where its word is not known.
pub(crate) fn asked_so_far(line: &[u8]) -> Option<Request<'_>> {
    match asked(line) {
        Ok(p) | Err(Wrong::Use(p)) => Some(p),
        Err(Wrong::Name(_)) => None,
    }
}

// Says that a value is not what it has to be: which, and what it has to be.
pub(crate) fn bad_value<T: Display + Drop>(s: &[u8], what: T) {
    complain(b"amseokbin: ");
    complain(s);
    complain_text(format_args!(" {what}\n"));
}
