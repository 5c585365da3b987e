// The command itself: does what the command line asks for. `command/main.c` stands before it: it reads the command line by `entry`,
// opens and locks the image, and puts what the machine gives in the place of argument 0. Started by hand it says so and ends with
// status 3. Assumes what `io` and `std` do.
#![tactic(auto)]

ghost use Rattle.std.specs.Prelude.{◌≤◌};

use command::Streams;
use std::alloc::{AllocError, Global};
use std::env::FillError;
use std::fs::File;
use std::process::ExitCode;
use std::random::RandomSource;
use std::rt::{Env, Files};

// The status of a command that could not do what it is to do.
const FAILED: u8 = 3;

// In place of an argument that is longer than any that is looked at.
const LONG: [u8; 4097] = [1u8; 4097];

// All arguments one after the other, each ended by a zero byte.
fn arguments<R: Env>(rt: &R, alloc: Global) -> Result<Vec<u8>, AllocError> {
    let mut all = Vec::new(alloc);
    // by their numbers: an iterator of them takes text alone
    for i in 0..usize::MAX {
        let mut buffer = io::buffer();
        match rt.arg(i, &mut buffer) {
            Ok(n) => all.extend_from_slice(&buffer[..n])?,
            Err(FillError::TooLong) => all.extend_from_slice(&LONG)?,
            Err(FillError::NotPresent) => break,
        }
        all.push(0)?;
    }
    Ok(all)
}

// Does what the command line wants with what the machine gives, with which it begins, and answers the command's status.
fn amseokbin_run<R: Files<File = File> + RandomSource>(rt: &R, streams: Streams, line: &[u8]) -> u32
    ensures { result ≤ 3 }
{
    command::perform(rt, streams, line)
}

fn main(rt: HostRuntime) -> ExitCode {
    let streams = Streams {
        input: rt.stdin(),
        output: rt.stdout(),
        errors: rt.stderr(),
    };
    match arguments(&rt, rt.alloc()) {
        Ok(line) => ExitCode::from(amseokbin_run(&rt, streams, line.as_slice()) as u8),
        Err(_) => {
            io::write_all(2, b"amseokbin: no memory for the arguments\n");
            ExitCode::from(FAILED)
        }
    }
}
