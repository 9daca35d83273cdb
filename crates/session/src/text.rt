// Numbers as decimal text in a buffer (specs/text/Text.antt).

ghost use Rattle.std.specs.Prelude.{◌≡◌, [], ◌∷◌, ◌++◌, ◌+◌, ◌*◌, ◌≤◌, ◌<◌, length, drop};
ghost use Rattle.session.specs.text.Writing.{Room, Puts};
ghost use Rattle.session.specs.text.Text.{line_feed, max_digits, number_most, line_most, decimal, spaced, following, line_text, numbers_in};

// A lent buffer that is written up to the place `at`. What is put goes there, and `at` behind it.
//
// No `fmt::Write`: `write!` promises its text where it answers `Ok`, and nowhere that it does, while what is put here cannot fail.
#[derive(Drop)]
pub struct Writer<'a> {
    pub text: &'a mut [u8],
    pub at: usize,
}

impl Writer<'_> {
    // Puts the bytes of `part`.
    pub fn put_bytes(&mut self, part: &[u8])
        requires { Room self.old (length part.now) }
        ensures { Puts self.old self.new part.now }
    {
        let next = self.at + part.len();
        self.text[self.at..next].copy_from_slice(part);
        self.at = next;
    }

    // Puts the digits of `n`.
    pub fn put_decimal(&mut self, n: u32)
        requires { Room self.old max_digits }
        ensures { Puts self.old self.new (decimal n) }
    {
        self.put_bytes(itoa::Buffer::new().format(n).as_bytes());
    }

    // Puts a blank and the digits of `n`.
    fn put_spaced(&mut self, n: u32)
        requires { Room self.old (1 + max_digits) }
        ensures { Puts self.old self.new (spaced n) }
    {
        self.put_bytes(b" ");
        self.put_decimal(n);
    }

    // Puts the numbers that `bytes` hold, each behind a blank.
    fn put_numbers(&mut self, bytes: &[u8])
        requires { Room self.old (number_most * length bytes.now + max_digits) }
        ensures { Puts self.old self.new (following (numbers_in bytes.now)) }
    {
        let mut pos: usize = 0;
        // a `while`: the position is behind the number that was read
        while pos < bytes.len() {
            match leb128::read(bytes, pos) {
                Ok(number) => {
                    self.put_spaced(number.value);
                    pos = number.next;
                }
                Err(_) => return,
            }
        }
    }

    // Puts a line feed.
    pub fn end_line(&mut self)
        requires { Room self.old 1 }
        ensures { Puts self.old self.new (line_feed ∷ []) }
    {
        self.put_bytes(b"\n");
    }
}

// Writes the line of `first` and the numbers behind it to the front of `text`, and gives its length.
pub fn put_line(first: u32, others: &[u32], text: &mut [u8]) -> usize
    requires { line_most (length others.now) 0 ≤ length text.old }
    ensures count { result ≡ length (line_text (first ∷ others.now)) }
    ensures bytes { text.new ≡ line_text (first ∷ others.now) ++ drop result text.old }
{
    let mut line = Writer { text, at: 0 };
    line.put_decimal(first);
    for n in others {
        line.put_spaced(*n);
    }
    line.end_line();
    line.at
}

// Writes the line of 0 and the numbers that `bytes` hold to the front of `text`, and gives its length.
pub fn put_report(bytes: &[u8], text: &mut [u8]) -> usize
    requires { line_most 1 (length bytes.now) ≤ length text.old }
    ensures count { result ≡ length (line_text (0 ∷ numbers_in bytes.now)) }
    ensures bytes { text.new ≡ line_text (0 ∷ numbers_in bytes.now) ++ drop result text.old }
{
    let mut line = Writer { text, at: 0 };
    line.put_decimal(0);
    line.put_numbers(bytes);
    line.end_line();
    line.at
}
