// A monitor as bytes at the start of a buffer, and read from there; numbers with the most significant byte first.
#![tactic(auto)]

ghost use Rattle.std.specs.Prelude.{◌≡◌, ◌++◌, ◌+◌, ◌*◌, ◌≤◌, length};
ghost use Rattle.arrayvec.specs.ArrayVec.{array_vec_len};
ghost use Rattle.wire.specs.Writing.{Wrote};
ghost use Rattle.monitor_image.specs.MonitorImage.{words_bytes, monitor_size, moment_numbers, tally_bytes};
ghost use Rattle.monitor_image.specs.MonitorImage.{monitor_bytes};
ghost use Rattle.monitor_image.specs.MonitorImage.{moment_in, moments_in, tally_in, monitor_in};

use arrayvec::ArrayVec;
use model::{Break, CLOCK_PLACES, Cause, Moment, Monitor, Place, Tally};

// The bytes of a monitor.
pub const MONITOR_SIZE: usize = 59;

type Image = ArrayVec<u8, MONITOR_SIZE>;

// Appends numbers, one after the other.
fn put_words(out: &mut Image, words: &[u32])
    requires { array_vec_len out.old + 4 * length words.now ≤ monitor_size }
    ensures items { out.new.items ≡ out.old.items ++ words_bytes words.now }
    ensures len { array_vec_len out.new ≡ array_vec_len out.old + 4 * length words.now }
{
    for n in words {
        wire::append_word32(out, *n);
    }
}

// Appends the eight reset moments.
fn put_moments(out: &mut Image, resets: &[Moment; CLOCK_PLACES])
    requires { array_vec_len out.old + 32 ≤ monitor_size }
    ensures items { out.new.items ≡ out.old.items ++ words_bytes (moment_numbers resets.now) }
    ensures len { array_vec_len out.new ≡ array_vec_len out.old + 32 }
{
    for r in resets {
        wire::append_word32(out, r.0);
    }
}

// Appends the moment, the counts and the break.
fn put_tally(out: &mut Image, x: &Tally)
    requires { array_vec_len out.old + 23 ≤ monitor_size }
    ensures items { out.new.items ≡ out.old.items ++ tally_bytes x.entry.now }
    ensures len { array_vec_len out.new ≡ array_vec_len out.old + 23 }
{
    put_words(out, &[x.now.0, x.records, x.kept, x.dropped, x.broken.at]);
    out.push(x.broken.reason);
    out.push(x.broken.cause.region);
    out.push(x.broken.cause.term);
}

// The bytes of a monitor.
#[tactic(auto, unfolding(crate::specs::MonitorImage::monitor_bytes))]
fn image_of(m: &Monitor) -> Image
    ensures items { result.items ≡ monitor_bytes m.now }
    ensures len { array_vec_len result ≡ monitor_size }
{
    let mut image = ArrayVec::new();
    wire::append_word32(&mut image, m.place.fired);
    put_moments(&mut image, &m.place.resets);
    put_tally(&mut image, &m.tally);
    image
}

// The monitor at the start of the buffer: read from there it is the same.
pub fn put_monitor(out: &mut [u8], m: Monitor) -> usize
    requires { monitor_size ≤ length out.old }
    ensures image { Wrote out.old 0 (monitor_bytes m) out.new result }
    ensures back { monitor_in out.new ≡ m }
{
    let image = image_of(&m);
    wire::put_bytes(out, 0, image.as_slice())
}

// The moment in four bytes.
fn moment_at(bytes: &[u8], at: usize) -> Moment
    ensures { result ≡ moment_in bytes.now at }
{
    Moment(wire::word32_at(bytes, at))
}

// The eight reset moments, after the four bytes of the fired regions.
fn moments_at(bytes: &[u8]) -> [Moment; CLOCK_PLACES]
    ensures { result ≡ moments_in bytes.now }
{
    [
        moment_at(bytes, 4),
        moment_at(bytes, 8),
        moment_at(bytes, 12),
        moment_at(bytes, 16),
        moment_at(bytes, 20),
        moment_at(bytes, 24),
        moment_at(bytes, 28),
        moment_at(bytes, 32),
    ]
}

// The tally in the 23 bytes from 36 on.
fn tally_at(bytes: &[u8]) -> Tally
    ensures { result ≡ tally_in bytes.now }
{
    let now = moment_at(bytes, 36);
    let cause = Cause {
        region: wire::byte_at(bytes, 57),
        term: wire::byte_at(bytes, 58),
    };
    let broken = Break {
        at: wire::word32_at(bytes, 52),
        reason: wire::byte_at(bytes, 56),
        cause,
    };
    Tally {
        now,
        records: wire::word32_at(bytes, 40),
        kept: wire::word32_at(bytes, 44),
        dropped: wire::word32_at(bytes, 48),
        broken,
    }
}

// The monitor whose image starts the bytes; a byte past the end reads as 0.
#[tactic(auto, unfolding(crate::specs::MonitorImage::monitor_in))]
pub fn monitor_at(bytes: &[u8]) -> Monitor
    ensures value { result ≡ monitor_in bytes.now }
    ensures unchanged { bytes.exit.now ≡ bytes.entry.now }
{
    let resets = moments_at(bytes);
    let place = Place {
        fired: wire::word32_at(bytes, 0),
        resets,
    };
    let tally = tally_at(bytes);
    Monitor { place, tally }
}
