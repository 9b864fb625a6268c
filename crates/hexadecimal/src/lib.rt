// Lines of text with bytes in hexadecimal, for the programs that run stored examples.
#![tactic(auto)]

ghost use Rattle.std.specs.Prelude.{◌≡◌, ◌<◌, ◌≤◌, ◌/◌, ◌%◌, ◌==◌, length, drop, SomeIff};
ghost use Rattle.std.specs.Counts.{IsPrefixLen};
ghost use Rattle.std.specs.List.{before_first, position_or_len};
ghost use Rattle.std.specs.Iterator.{YieldsFirstRef, item_count};
ghost use Rattle.hexadecimal.specs.Hex.{first_of, digit_of, low_digit, with_digit, filled_with, filled_by};
ghost use Rattle.hexadecimal.specs.Lines.{lines_of, lines_left};

pub const LINE_FEED: u8 = b'\n';

pub const COLON: u8 = b':';

// The value of a hexadecimal digit; none of any other byte. `char::to_digit` would take capital letters too.
fn digit(b: u8) -> Option<u8>
    ensures { SomeIff result (digit_of b < 16) (digit_of b) }
{
    match b {
        b'0'..=b'9' => Some(b - b'0'),
        b'a'..=b'f' => Some(b - b'a' + 10),
        _ => None,
    }
}

// The digit of a byte's lower half: read again, that half.
pub fn low_digit(b: u8) -> u8
    ensures digit { result ≡ low_digit b }
    ensures again { digit_of result ≡ b % 16 }
{
    match b % 16 {
        d @ 0..=9 => b'0' + d,
        d => b'a' + (d - 10),
    }
}

// The first offset from `from` on, and before `to`, at which the byte stands; `to` if it stands at none.
pub fn find(text: &[u8], from: usize, to: usize, byte: u8) -> usize
    requires { (from ≤ to) × (to ≤ length text.now) }
    ensures offset { result ≡ first_of text.now from to byte }
    ensures between { (from ≤ result) × (result ≤ to) }
    ensures unchanged { text.exit.now ≡ text.entry.now }
{
    let part = &text[from..to];
    from + part.iter().position(|b| *b == byte).unwrap_or(part.len())
}

// A text cut before the first such byte, or at its end if the byte stands nowhere.
pub fn split_before(text: &[u8], byte: u8) -> (&[u8], &[u8])
    ensures before { result.0.now ≡ before_first (λ b. b == byte) text.now }
    ensures from { result.1.now ≡ drop (position_or_len (λ b. b == byte) text.now) text.now }
{
    text.split_at(find(text, 0, text.len(), byte))
}

// The lines of a text, without their line feeds; behind a line feed at the end there is none.
#[derive(Drop)]
pub struct TextLines<'a>(&'a [u8]);

pub fn lines(text: &[u8]) -> TextLines<'_>
    ensures lines { lines_left result ≡ lines_of text.now }
    ensures count { length (lines_left result) ≤ length text.now }
{
    TextLines(text)
}

impl<'a> Iterator for TextLines<'a> {
    type Item = &'a [u8];

    ghost next_gives = { YieldsFirstRef lines_left };

    ghost remaining = { item_count lines_left };

    fn next(&mut self) -> Option<&'a [u8]> {
        if self.0.is_empty() {
            return None;
        }
        let (line, rest) = split_before(self.0, LINE_FEED);
        self.0 = rest.get(1..).unwrap_or(rest);
        Some(line)
    }
}

// The byte with a digit put after its lower half.
fn with_digit(byte: u8, d: u8) -> u8
    requires { d < 16 }
    ensures { result ≡ with_digit byte d }
{
    byte % 16 * 16 + d
}

// Puts the bytes that hexadecimal digits spell at the start of a buffer of zeros, two digits to a byte, as far as it
// reaches, and answers how many there are. Other bytes of the text are passed over.
pub fn put_bytes(digits: &[u8], out: &mut [u8]) -> usize
    ensures bytes { out.new ≡ (filled_by (filled_with out.old 0) digits.now).bytes }
    ensures count { result ≡ (filled_by (filled_with out.old 0) digits.now).digits / 2 }
    ensures within { IsPrefixLen result out.new }
    ensures unchanged { digits.exit.now ≡ digits.entry.now }
{
    let mut n = 0;
    for b in digits {
        let Some(d) = digit(*b) else {
            continue;
        };
        let place = n / 2;
        if place < out.len() {
            out[place] = with_digit(out[place], d);
            n += 1;
        }
    }
    n / 2
}
