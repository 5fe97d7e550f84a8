// A line that is being written, in a fixed place.
ghost use Rattle.std.specs.Prelude.{◌≡◌, [], ◌∷◌, ◌++◌, decimal};
ghost use Rattle.lines.specs.Texts.{text_of, cut};

use few::Few;

// The longest line of any sort, a statement line.
pub(crate) const LONGEST: usize = 170;

/// The bytes of a line of any sort, at most 170.
// Kept: a Few of its own type, since it leaves out in silence what has no room, where Few answers Full.
#[derive(Clone, Copy)]
pub struct Text {
    bytes: Few<u8, LONGEST>,
}

impl Text {
    /// An empty text.
    pub fn new() -> Text
        ensures { text_of result ≡ [] }
    {
        Text { bytes: Few::new(0) }
    }

    /// The bytes, in their order.
    pub fn as_bytes(&self) -> &[u8]
        ensures { result.now ≡ text_of self.now }
    {
        self.bytes.as_slice()
    }

    /// Forgets the bytes.
    pub fn clear(&mut self)
        ensures { text_of self.new ≡ [] }
    {
        self.bytes.clear();
    }

    /// Appends a byte, if there is room.
    pub fn push(&mut self, b: u8)
        ensures { text_of self.new ≡ cut (text_of self.old ++ (b ∷ [])) }
    {
        let _ = self.bytes.push(b);
    }

    /// Appends as many bytes of `part` as there is room for.
    pub fn push_all(&mut self, part: &[u8])
        ensures { text_of self.new ≡ cut (text_of self.old ++ part.now) }
    {
        self.bytes.push_all(part);
    }

    // Appends the digits of a number.
    // Kept: `write!` needs an impl of fmt::Write with its laws, which is longer than these two functions.
    fn push_digits(&mut self, n: u64)
        ensures { text_of self.new ≡ cut (text_of self.old ++ decimal n) }
    {
        if n >= 10 {
            self.push_digits(n / 10);
        }
        self.push(b'0' + (n % 10) as u8);
    }

    /// Appends the digits of a number, as many as there is room for.
    // Most have one digit or two, which is done at once for speed.
    pub fn push_number(&mut self, n: u64)
        ensures { text_of self.new ≡ cut (text_of self.old ++ decimal n) }
    {
        if n < 10 {
            self.push(b'0' + n as u8);
        } else if n < 100 {
            self.push_all(&[b'0' + (n / 10) as u8, b'0' + (n % 10) as u8]);
        } else {
            self.push_digits(n);
        }
    }
}
