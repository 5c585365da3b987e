// Checks a dump. Reads standard input, the front copy and then the back, and prints one line: what discovery answers for
// them. The files stdin and stdout beside src/ have a sample and what is printed for it. What the line says is proved in
// `dump_line`. Assumes what `io` and `libc` do.
#![tactic(auto)]

const IN: i32 = 0;

const OUT: i32 = 1;

// One byte more than a dump, so that a longer one is seen to be longer.
const ROOM: usize = layout::DUMP_BYTES + 1;

fn main() {
    let mut input = [0u8; ROOM];
    let n = io::read_full(IN, &mut input);
    let mut line = [0u8; dump_line::LINE_BYTES];
    if let Ok(k) = dump_line::dump_line(&input[..n], &mut line) {
        io::write_all(OUT, endian::window(&line, 0, k));
    }
}
