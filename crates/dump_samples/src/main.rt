// Runs the dump program's line over many dumps. Standard input has the samples, packed by samples/dumps.py; for each, its
// name and its line are printed. The file stdout beside src/ has what that script says must be printed. Assumes what `io`
// and `libc` do.
#![tactic(auto)]

ghost use Rattle.std.specs.Prelude.{◌≤◌, ◌<◌, length};
ghost use Rattle.sampling.specs.Laying.{input_bytes};

use sampling::say;

// Prints the line of the dump d.
fn print(d: &[u8]) {
    let mut line = [0u8; dump_line::LINE_BYTES];
    if let Ok(k) = dump_line::dump_line(d, &mut line) {
        say(endian::window(&line, 0, k));
    }
}

// Prints the name and the line of the sample at `from` of s, and answers where the sample ends.
fn sample(s: &[u8], from: usize) -> usize
    requires { from ≤ input_bytes }
    ensures { from < result }
{
    let name = endian::read_u16(s, from) as usize;
    say(endian::window(s, from + 2, name));
    say(b": ");
    let at = from + 2 + name;
    let size = endian::read_u16(s, at) as usize;
    let mut dump = io::large_buffer();
    let end = sampling::patch(s, at + 4, endian::read_u16(s, at + 2), &mut dump);
    print(endian::window(&dump, 0, size));
    end
}

// Every sample of s.
fn samples(s: &[u8])
    requires { length s.now ≤ input_bytes }
{
    let mut at = 0;
    // A `while` in each program: a sample says where the next one begins, and a shared function over a closure would have a `requires`.
    while at < s.len() {
        at = sample(s, at);
    }
}

fn main() {
    let input = sampling::fetch();
    samples(&input.bytes[..input.used]);
}
