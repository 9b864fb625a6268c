// What the printing program prints: the verdict's two lines, or a refusal's one.
#![tactic(auto)]

ghost use Rattle.std.specs.Prelude.{◌≡◌, ◌+◌, ◌≤◌, ◌++◌, length};
ghost use Rattle.arrayvec.specs.ArrayVec.{array_vec_len};
ghost use Rattle.wire.specs.Writing.{starting_with};
ghost use Rattle.listing.specs.Listing.{listing_of, room, part_name, part_number, verdict_lines, refusal_line};
ghost use Rattle.listing.specs.Parts.{field_text};

use arrayvec::ArrayVec;
use model::{PLACES, Verdict};

// P12: so many bytes are enough for every listing.
pub const ROOM: usize = 223;

type Text = ArrayVec<u8, ROOM>;

// The part of the input that a refusal speaks of.
#[derive(Clone, Copy, Debug, PartialEq, Eq)]
pub enum Part {
    Input,
    Chart,
    Log,
}

impl Part {
    #[tactic(auto, unfolding(text::specs::Text::bytes_of))]
    fn name(self) -> &'static [u8]
        ensures value { result.now ≡ part_name self }
        ensures short { length result.now ≤ 5 }
    {
        match self {
            Part::Input => b"input",
            Part::Chart => b"chart",
            Part::Log => b"log",
        }
    }
}

impl From<Part> for u64 {
    ghost from_gives = { λ part n. n ≡ part_number part };

    fn from(part: Part) -> u64 {
        match part {
            Part::Input => 0,
            Part::Chart => 1,
            Part::Log => 2,
        }
    }
}

// A refusal: its part, its number and its offset within that part. The number and no enum, since it is printed alike for
// the three kinds of refusals.
#[derive(Clone, Copy, Debug, PartialEq, Eq)]
pub struct Refused {
    pub part: Part,
    pub number: u8,
    pub offset: usize,
}

// A verdict, or a refusal.
pub type Report = Result<Verdict, Refused>;

// A number in decimal, and one byte after it.
fn put_field(out: &mut Text, n: u64, end: u8)
    requires { array_vec_len out.old + 21 ≤ room }
    ensures text { out.new.items ≡ out.old.items ++ field_text n end }
    ensures short { array_vec_len out.new ≤ array_vec_len out.old + 21 }
{
    text::append_decimal(out, n);
    out.push(end);
}

// P8: the header, and the eight numbers.
fn verdict_text(v: Verdict) -> Text
    ensures { result.items ≡ verdict_lines v }
{
    let mut out = ArrayVec::new();
    wire::append(
        &mut out,
        b"STANDING KEPT DROPPED RECORDS BREAK REASON REGION TERM\n",
    );
    let numbers: [u64; PLACES] = v.into();
    for n in &numbers[..PLACES - 1] {
        put_field(&mut out, *n, b' ');
    }
    put_field(&mut out, numbers[PLACES - 1], b'\n');
    out
}

// P6: the part, the number and the offset.
fn refusal_text(refused: Refused) -> Text
    ensures { result.items ≡ refusal_line refused.part refused.number refused.offset }
{
    let mut out = ArrayVec::new();
    wire::append(&mut out, b"refused ");
    wire::append(&mut out, refused.part.name());
    out.push(b' ');
    put_field(&mut out, u64::from(refused.number), b' ');
    wire::append(&mut out, b"at ");
    put_field(&mut out, refused.offset as u64, b'\n');
    out
}

// The report's text at the start of the buffer, and its length; the bytes after it stay as they were.
pub fn put_report(out: &mut [u8], report: Report) -> usize
    requires { room ≤ length out.old }
    ensures length { result ≡ length (listing_of report) }
    ensures buffer { out.new ≡ starting_with (listing_of report) out.old }
    ensures short { result ≤ room }
{
    let lines = match report {
        Ok(v) => verdict_text(v),
        Err(refused) => refusal_text(refused),
    };
    out[..lines.len()].copy_from_slice(lines.as_slice());
    lines.len()
}
