// One command of a chart: its byte picks how many operand bytes follow and what they mean.
#![tactic(auto)]

ghost use Rattle.std.specs.Prelude.{◌≡◌, ◌<◌, length, get_or};
ghost use Rattle.chart_command.specs.Command.{operands, decode_byte, decode_at};

#[derive(Clone, Copy, Debug, PartialEq, Eq)]
pub enum Command {
    // lines, clocks
    Heading(u8, u8),
    // source, destination, label
    Message(u8, u8, u16),
    // lines
    Plain(u16),
    // clock, relation, n
    ClockTerm(u8, u8, u32),
    // first clock, second clock, relation, n
    DifferenceTerm(u8, u8, u8, u32),
    Hot,
    Rest,
    // clocks
    Resets(u8),
    Main,
    End,
}

// A command, and the offset just after it.
#[derive(Clone, Copy, Debug, PartialEq, Eq)]
pub struct Decoded {
    pub command: Command,
    pub next: usize,
}

// Why no command stands at an offset: too few bytes are left, or none of the ten has the byte.
#[derive(Clone, Copy, Debug, PartialEq, Eq)]
pub enum Undecoded {
    CutShort,
    Unknown,
}

pub const HEADING: u8 = 0x10;

pub const MESSAGE: u8 = 0x20;

pub const PLAIN: u8 = 0x21;

pub const CLOCK_TERM: u8 = 0x30;

pub const DIFFERENCE_TERM: u8 = 0x31;

pub const HOT: u8 = 0x32;

pub const REST: u8 = 0x33;

pub const RESETS: u8 = 0x40;

pub const MAIN: u8 = 0x50;

pub const END: u8 = 0x7f;

// A command with n operand bytes, if they are there.
fn with_operands(s: &[u8], at: usize, n: usize, command: Command) -> Result<Decoded, Undecoded>
    requires { (at < length s.now) × (n < 8) }
    ensures { result ≡ operands s.now at n command }
{
    if s.len() - at <= n {
        return Err(Undecoded::CutShort);
    }
    Ok(Decoded {
        command,
        next: at + 1 + n,
    })
}

// The command whose byte stands at an offset.
fn decode_byte(s: &[u8], at: usize) -> Result<Decoded, Undecoded>
    requires { at < length s.now }
    ensures { result ≡ decode_byte s.now at (get_or s.now at 0) }
{
    let command = wire::byte_at(s, at);
    let a = wire::byte_at(s, at + 1);
    let b = wire::byte_at(s, at + 2);
    match command {
        HEADING => with_operands(s, at, 2, Command::Heading(a, b)),
        MESSAGE => with_operands(s, at, 4, Command::Message(a, b, wire::word16_at(s, at + 3))),
        PLAIN => with_operands(s, at, 2, Command::Plain(wire::word16_at(s, at + 1))),
        CLOCK_TERM => with_operands(
            s,
            at,
            6,
            Command::ClockTerm(a, b, wire::word32_at(s, at + 3)),
        ),
        DIFFERENCE_TERM => {
            let relation = wire::byte_at(s, at + 3);
            let n = wire::word32_at(s, at + 4);
            with_operands(s, at, 7, Command::DifferenceTerm(a, b, relation, n))
        }
        HOT => with_operands(s, at, 0, Command::Hot),
        REST => with_operands(s, at, 0, Command::Rest),
        RESETS => with_operands(s, at, 1, Command::Resets(a)),
        MAIN => with_operands(s, at, 0, Command::Main),
        END => with_operands(s, at, 0, Command::End),
        _ => Err(Undecoded::Unknown),
    }
}

// The command at an offset.
pub fn decode(s: &[u8], at: usize) -> Result<Decoded, Undecoded>
    ensures command { result ≡ decode_at s.now at }
    ensures unchanged { s.exit.now ≡ s.entry.now }
{
    if s.len() <= at {
        return Err(Undecoded::CutShort);
    }
    decode_byte(s, at)
}
