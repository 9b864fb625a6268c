// One record of a log's bytes, read at an offset.
#![tactic(auto)]

ghost use Rattle.std.specs.Prelude.{◌≡◌, ◌<◌, length};
ghost use Rattle.log_reader.specs.Record.{parts_at};
ghost use Rattle.log_reader.specs.Next.{message_next, time_next, next_at};
ghost use Rattle.log_reader.specs.Reader.{HandsOut, offset_or};

use model::{Message, Moment, RawRecord, Record, Stamp};

// Why no record is handed out.
#[derive(Clone, Copy)]
pub enum RecordRefusal {
    CutShort,
    UnknownByte,
}

// What stands at an offset: the end, or a record or raw record and the offset just after it.
#[derive(Clone, Copy)]
pub enum Next {
    End,
    Handed(Record, usize),
    Raw(RawRecord, usize),
}

pub const MESSAGE_TAG: u8 = 0x01;

pub const TIME_TAG: u8 = 0x02;

pub const RAW_MESSAGE_TAG: u8 = 0x03;

pub const RAW_TIME_TAG: u8 = 0x04;

pub const MESSAGE_SIZE: usize = 9;

pub const TIME_SIZE: usize = 5;

const CUT_SHORT: u8 = 30;

const UNKNOWN_BYTE: u8 = 31;

impl From<RecordRefusal> for u8 {
    ghost use Rattle.log_reader.specs.Record.{record_refusal_number};

    ghost from_gives = { λ why n. n ≡ record_refusal_number why };

    fn from(why: RecordRefusal) -> u8 {
        match why {
            RecordRefusal::CutShort => CUT_SHORT,
            RecordRefusal::UnknownByte => UNKNOWN_BYTE,
        }
    }
}

// Source, destination and label of the message whose nine bytes start at an offset within the bytes.
fn parts_at(s: &[u8], at: usize) -> Message
    requires { at < length s.now }
    ensures { result ≡ parts_at s.now at }
{
    Message {
        source: wire::byte_at(s, at + 1),
        destination: wire::byte_at(s, at + 2),
        label: wire::word16_at(s, at + 3),
    }
}

// The message at an offset within the bytes. Plain and raw ones have the same bytes but for the tag, which tells them
// apart.
fn message_next(bytes: &[u8], offset: usize, tag: u8) -> Result<Next, RecordRefusal>
    requires { offset < length bytes.now }
    ensures { result ≡ message_next bytes.now offset tag }
{
    let past = offset + MESSAGE_SIZE;
    if bytes.len() < past {
        return Err(RecordRefusal::CutShort);
    }
    let message = parts_at(bytes, offset);
    let word = wire::word32_at(bytes, offset + 5);
    if tag == MESSAGE_TAG {
        return Ok(Next::Handed(Record::Message(message, Moment(word)), past));
    }
    Ok(Next::Raw(RawRecord::Message(message, Stamp(word)), past))
}

// Likewise the record of time.
fn time_next(bytes: &[u8], offset: usize, tag: u8) -> Result<Next, RecordRefusal>
    requires { offset < length bytes.now }
    ensures { result ≡ time_next bytes.now offset tag }
{
    let past = offset + TIME_SIZE;
    if bytes.len() < past {
        return Err(RecordRefusal::CutShort);
    }
    let word = wire::word32_at(bytes, offset + 1);
    if tag == TIME_TAG {
        return Ok(Next::Handed(Record::Time(Moment(word)), past));
    }
    Ok(Next::Raw(RawRecord::Time(Stamp(word)), past))
}

// E2 to E4: the record at an offset; the bytes stay as they are.
pub fn read_record(bytes: &[u8], offset: usize) -> Result<Next, RecordRefusal>
    ensures { (result ≡ next_at bytes.now offset) × (bytes.exit.now ≡ bytes.entry.now) }
{
    if bytes.len() <= offset {
        return Ok(Next::End);
    }
    let tag = wire::byte_at(bytes, offset);
    if (tag == MESSAGE_TAG) | (tag == RAW_MESSAGE_TAG) {
        return message_next(bytes, offset, tag);
    }
    if (tag == TIME_TAG) | (tag == RAW_TIME_TAG) {
        return time_next(bytes, offset, tag);
    }
    Err(RecordRefusal::UnknownByte)
}

// E4: the offset just after a record that is handed out; if there is none, it stays.
fn offset_after(offset: usize, next: Next) -> usize
    ensures { result ≡ offset_or offset (Ok next) }
{
    match next {
        Next::End => offset,
        Next::Handed(_, past) => past,
        Next::Raw(_, past) => past,
    }
}

// A log's bytes where they lie, and an offset in them.
#[derive(Clone, Copy)]
pub struct LogReader<'a> {
    pub log: &'a [u8],
    pub offset: usize,
}

pub fn reader_at<'a>(log: &'a [u8], offset: usize) -> LogReader<'a>
    ensures { (result.log ≡ log.entry) × (result.offset ≡ offset) }
{
    LogReader { log, offset }
}

// Hands out the record at the offset, which moves to just after it; if there is none, it stays.
pub fn take_record<'s, 'a>(r: &'s mut LogReader<'a>) -> Result<Next, RecordRefusal>
    ensures { HandsOut r.old result r.new }
{
    let next = read_record(r.log, r.offset)?;
    r.offset = offset_after(r.offset, next);
    Ok(next)
}
