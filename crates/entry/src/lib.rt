// The first call of the command, for the program in C, `command/main.c`. A crate of its own, so that the archive is made in seconds.
// Assumes what `io` does.
#![tactic(auto)]

ghost use Rattle.std.specs.Prelude.{◌≤◌};

// What the command line wants: with access 0 nothing more, and the command has this status; with 1 that the image, argument
// number `image`, is opened for reading, with 2 for writing. With image 0 no image is opened.
#[repr(C)]
#[derive(Clone, Copy)]
pub struct Request {
    pub status: u32,
    pub access: u32,
    pub image: u64,
}

// Reads the command line, all arguments one after the other, each ended by a zero byte. What is wrong with it is said.
#[unsafe(no_mangle)]
pub extern "C" fn amseokbin_request(arguments: &[u8]) -> Request
    ensures { (result.status ≤ 3) × (result.access ≤ 2) }
{
    let a = command::read_request(arguments);
    Request {
        status: a.status,
        access: a.access,
        image: a.image,
    }
}
