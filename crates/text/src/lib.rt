// A text in the making, by value: pieces and decimal numbers are added to it, and what has no room is left out.
// Every call is total.
#![tactic(auto)]

ghost use Rattle.std.specs.Prelude.{◌≡◌, [], ◌+◌, ◌<◌, length, drop};
ghost use Rattle.text.specs.Decimal.{decimal};
ghost use Rattle.text.specs.Text.{text, added, filled};

// A text in the making: the first `used` of its bytes. An array and a length, since there is no heap.
#[derive(Clone, Copy)]
pub struct Text {
    pub bytes: [u8; 256],
    pub used: usize,
}

// The digits of a number: its bytes from `at` on.
#[derive(Clone, Copy)]
struct Row {
    bytes: [u8; 20],
    at: usize,
}

// The ASCII digit of a number below ten.
fn digit(d: u64) -> u8
    requires { d < 10 }
    ensures { result ≡ 48 + d }
{
    48 + d as u8
}

// A number in decimal.
fn digits(v: u64) -> Row
    ensures { (result.at < 20) × (length result.bytes ≡ 20) × (drop result.at result.bytes ≡ decimal v) }
{
    // A `for` over the places would need an answer for a number that has more digits than there are places.
    let mut d = [0u8; 20];
    let mut x = v;
    let mut i = 19;
    while 10 <= x {
        d[i] = digit(x % 10);
        x = x / 10;
        i -= 1;
    }
    d[i] = digit(x);
    Row { bytes: d, at: i }
}

impl Text {
    // The empty text.
    #[tactic(auto, unfolding(crate::specs::Text::text))]
    pub fn new() -> Text
        ensures { text result ≡ [] }
    {
        Text {
            bytes: [0u8; 256],
            used: 0,
        }
    }

    // Its bytes.
    #[tactic(auto, unfolding(crate::specs::Text::text, endian::specs::Bytes::window))]
    pub fn as_bytes(&self) -> &[u8]
        ensures { result.now ≡ text self.now }
    {
        endian::window(&self.bytes, 0, self.used)
    }

    // The text with one more piece, or as it was where the piece has no room.
    pub fn add(self, piece: &[u8]) -> Text
        ensures { text result ≡ added (text self) piece.now }
    {
        let mut bytes = self.bytes;
        let at = self.used;
        if !endian::put(&mut bytes, at, piece) {
            return self;
        }
        Text {
            bytes,
            used: at + piece.len(),
        }
    }

    // The text with a number in decimal, and before it as many bytes c as make it `width` long.
    fn filled(self, v: u64, width: usize, c: u8) -> Text
        ensures { text result ≡ added (text self) (filled c width (decimal v)) }
    {
        let row = digits(v);
        let d = row.bytes;
        let at = row.at;
        if width <= 20 - at {
            return self.add(&d[at..]);
        }
        if 256 < width {
            return self;
        }
        let mut long = [c; 256];
        endian::put(&mut long, 236 + at, &d[at..]);
        let start = 256 - width;
        self.add(&long[start..])
    }

    // The text with a number in decimal.
    #[tactic(auto, using(crate::proofs::Texts::filled_long))]
    pub fn decimal(self, v: u64) -> Text
        ensures { text result ≡ added (text self) (decimal v) }
    {
        self.filled(v, 0, b' ')
    }

    // The text with a number in decimal, blanks before it up to `width` characters.
    pub fn padded(self, v: u64, width: usize) -> Text
        ensures { text result ≡ added (text self) (filled 32 width (decimal v)) }
    {
        self.filled(v, width, b' ')
    }

    // The same with zeros before it.
    pub fn zeroed(self, v: u64, width: usize) -> Text
        ensures { text result ≡ added (text self) (filled 48 width (decimal v)) }
    {
        self.filled(v, width, b'0')
    }
}
