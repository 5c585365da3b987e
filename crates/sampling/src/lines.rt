// Pieces of lines, as texts, and printing them on standard output.
ghost use Rattle.std.specs.Prelude.{◌≡◌, ◌^◌, ◌≤◌, ◌<◌};
ghost use Rattle.checksum.specs.Crc.{checksum};
ghost use Rattle.text.specs.Text.{text, added};
ghost use Rattle.sampling.specs.Pieces.{added_number, added_beside, spaced_number, hex, spaced_sum, beside_piece, refusal_piece, Printed};

use refusal::Refusal;
use text::Text;

// Standard output.
const OUT: i32 = 1;

// The text with a space and a number.
#[tactic(auto, unfolding(crate::specs::Pieces::added_number))]
fn add_number(t: Text, n: u64) -> Text
    ensures { text result ≡ added_number (text t) n }
{
    t.add(b" ").decimal(n)
}

// The text with what stands beside a refusal's number, where that is not zero.
#[tactic(auto, unfolding(crate::specs::Pieces::added_beside))]
fn add_beside(t: Text, r: Refusal) -> Text
    ensures { text result ≡ added_beside (text t) r }
{
    if (r.first == 0) & (r.second == 0) {
        return t;
    }
    add_number(add_number(t, r.first), r.second)
}

// The text with a number in w hexadecimal digits, in which it has room.
fn add_hex(t: Text, n: u64, w: usize) -> Text
    requires { (1 ≤ w) × (w ≤ 16) × (n < 16 ^ w) }
    ensures { text result ≡ added (text t) (hex w n) }
{
    let mut out = [0u8; 16];
    let k = io::hex(n, w, &mut out);
    t.add(&out[..k])
}

// A space and a number.
#[tactic(auto, using(crate::proofs::Pieces::number_fits))]
pub fn number(n: u64) -> Text
    ensures { text result ≡ spaced_number n }
{
    add_number(Text::new(), n)
}

// A number in 8 hexadecimal digits.
pub fn short_hex(n: u32) -> Text
    ensures { text result ≡ hex 8 n }
{
    add_hex(Text::new(), n as u64, 8)
}

// A number in 16 hexadecimal digits.
pub fn long_hex(n: u64) -> Text
    ensures { text result ≡ hex 16 n }
{
    add_hex(Text::new(), n, 16)
}

// A space and the checksum of s, in 8 hexadecimal digits.
pub fn sum(s: &[u8]) -> Text
    ensures { text result ≡ spaced_sum (checksum s.now) }
{
    let c = checksum::checksum(s);
    add_hex(Text::new().add(b" "), c as u64, 8)
}

// What stands beside a refusal's number, a space before each; nothing where both are zero.
pub fn beside(r: Refusal) -> Text
    ensures { text result ≡ beside_piece r }
{
    add_beside(Text::new(), r)
}

// A refusal with what stands beside its number.
pub fn refusal(r: Refusal) -> Text
    ensures { text result ≡ refusal_piece r }
{
    let n = r.number;
    add_beside(add_number(Text::new().add(b"refused"), n as u64), r)
}

// Prints s, and answers its length, or 0 where not all of it could be written.
#[tactic(auto, unfolding(crate::specs::Pieces::Printed))]
pub fn say(s: &[u8]) -> usize
    ensures { Printed s.now result }
{
    if io::write_all(OUT, s) { s.len() } else { 0 }
}

// Prints a text; answers as `say` does.
pub fn print(t: Text) -> usize
    ensures { Printed (text t) result }
{
    say(t.as_bytes())
}
