// V18: one record of a log, read and put as six numbers. 0 is success, 12 a buffer with too few places.
#![tactic(auto)]

ghost use Rattle.std.specs.Prelude.{◌≡◌, ◌≤◌, length};
ghost use Rattle.wire.specs.Writing.{starting_with};
ghost use Rattle.log_reader.specs.Next.{next_at};
ghost use Rattle.record_numbers.specs.Numbers.{record_places, message_numbers, time_numbers, plain_numbers};
ghost use Rattle.record_numbers.specs.Numbers.{raw_numbers, record_numbers, read_number, read_out};

use log_reader::Next;
use model::{Message, RawRecord, Record, TOO_SHORT};

// How many places of a buffer a record takes.
const RECORD_PLACES: usize = 6;

// The kinds of records; 0 at the end of the log.
const NO_RECORD: u64 = 0;

const MESSAGE: u64 = 1;

const TIME: u64 = 2;

const RAW_MESSAGE: u64 = 3;

const RAW_TIME: u64 = 4;

// Puts the numbers of a message, by its kind.
fn put_message(out: &mut [u64], kind: u64, m: Message, time: u32, past: usize)
    requires { record_places ≤ length out.old }
    ensures { out.new ≡ starting_with (message_numbers kind m time past) out.old }
{
    let numbers = [
        kind,
        u64::from(m.source),
        u64::from(m.destination),
        u64::from(m.label),
        u64::from(time),
        past as u64,
    ];
    wire::put_numbers(out, numbers);
}

// Likewise those of a record of time.
fn put_time(out: &mut [u64], kind: u64, time: u32, past: usize)
    requires { record_places ≤ length out.old }
    ensures { out.new ≡ starting_with (time_numbers kind time past) out.old }
{
    wire::put_numbers(out, [kind, 0, 0, 0, u64::from(time), past as u64]);
}

// Puts the numbers of a record.
fn put_record(out: &mut [u64], e: Record, past: usize)
    requires { record_places ≤ length out.old }
    ensures { out.new ≡ starting_with (plain_numbers past e) out.old }
{
    match e {
        Record::Message(m, t) => put_message(out, MESSAGE, m, t.0, past),
        Record::Time(t) => put_time(out, TIME, t.0, past),
    }
}

// Puts the numbers of a raw record.
fn put_raw(out: &mut [u64], e: RawRecord, past: usize)
    requires { record_places ≤ length out.old }
    ensures { out.new ≡ starting_with (raw_numbers past e) out.old }
{
    match e {
        RawRecord::Message(m, s) => put_message(out, RAW_MESSAGE, m, s.0, past),
        RawRecord::Time(s) => put_time(out, RAW_TIME, s.0, past),
    }
}

// Puts the numbers of what stands at a place.
fn put_next(out: &mut [u64], place: usize, next: Next)
    requires { record_places ≤ length out.old }
    ensures { out.new ≡ starting_with (record_numbers place (Ok next)) out.old }
{
    match next {
        Next::End => put_time(out, NO_RECORD, 0, place),
        Next::Handed(e, past) => put_record(out, e, past),
        Next::Raw(e, past) => put_raw(out, e, past),
    }
}

// E2 to E4: reads the record at a place of a log.
pub fn read(log: &[u8], place: usize, out: &mut [u64]) -> u8
    ensures number { result ≡ read_number (next_at log.now place) out.old }
    ensures numbers { out.new ≡ read_out place (next_at log.now place) out.old }
    ensures unchanged { log.exit.now ≡ log.entry.now }
{
    if out.len() < RECORD_PLACES {
        return TOO_SHORT;
    }
    match log_reader::read_record(log, place) {
        Ok(next) => {
            put_next(out, place, next);
            0
        }
        Err(why) => u8::from(why),
    }
}
