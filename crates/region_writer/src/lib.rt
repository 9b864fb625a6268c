// One region of a chart put in bytes (D3).
#![tactic(auto)]

ghost use Rattle.std.specs.Prelude.{◌≡◌, [], ◌++◌, ◌+◌, ◌≤◌};
ghost use Rattle.arrayvec.specs.ArrayVec.{array_vec_len};
ghost use Rattle.model.specs.declared.Event.TheVariants.{Message as MessageEvent, Plain as PlainEvent};
ghost use Rattle.model.specs.Chart.{most_terms};
ghost use Rattle.chart_value.specs.Writer.{left_bytes, term_bytes, event_bytes, terms_bytes, flag_bytes};
ghost use Rattle.chart_value.specs.Writer.{resets_bytes, region_bytes};
ghost use Rattle.region_writer.specs.Parts.{marks_bytes};

use arrayvec::ArrayVec;
use chart_command::{CLOCK_TERM, DIFFERENCE_TERM, HOT, MESSAGE, PLAIN, RESETS, REST};
use model::{Event, Left, Message, Region, Term};

// The command of a term and its clocks.
fn put_left<const CAP: usize>(out: &mut ArrayVec<u8, CAP>, l: Left)
    requires { array_vec_len out.old + 3 ≤ CAP }
    ensures items { out.new.items ≡ out.old.items ++ left_bytes l [] }
    ensures short { array_vec_len out.new ≤ array_vec_len out.old + 3 }
{
    match l {
        Left::Clock(k) => {
            out.push(CLOCK_TERM);
            out.push(k);
        }
        Left::Difference(a, b) => {
            out.push(DIFFERENCE_TERM);
            out.push(a);
            out.push(b);
        }
    }
}

fn put_term<const CAP: usize>(out: &mut ArrayVec<u8, CAP>, t: Term)
    requires { array_vec_len out.old + 8 ≤ CAP }
    ensures items { out.new.items ≡ out.old.items ++ term_bytes t [] }
    ensures short { array_vec_len out.new ≤ array_vec_len out.old + 8 }
{
    put_left(out, t.left);
    out.push(u8::from(t.relation));
    wire::append_word32(out, t.n);
}

// D3: a region's terms, in their order.
#[tactic(auto, unfolding(chart_value::specs::Writer::terms_bytes))]
fn put_terms<const CAP: usize>(out: &mut ArrayVec<u8, CAP>, g: &Region)
    requires count_le_most_terms { g.now.count ≤ most_terms }
    requires room { array_vec_len out.old + 32 ≤ CAP }
    ensures items { out.new.items ≡ out.old.items ++ terms_bytes g.now g.now.count 0 [] }
    ensures short { array_vec_len out.new ≤ array_vec_len out.old + 32 }
{
    for t in &g.terms[..usize::from(g.count)] {
        put_term(out, *t);
    }
}

fn put_message<const CAP: usize>(out: &mut ArrayVec<u8, CAP>, m: Message)
    requires { array_vec_len out.old + 5 ≤ CAP }
    ensures items { out.new.items ≡ out.old.items ++ event_bytes (MessageEvent m) [] }
    ensures len { array_vec_len out.new ≡ array_vec_len out.old + 5 }
{
    out.push(MESSAGE);
    out.push(m.source);
    out.push(m.destination);
    wire::append_word16(out, m.label);
}

fn put_plain<const CAP: usize>(out: &mut ArrayVec<u8, CAP>, lines: u16)
    requires { array_vec_len out.old + 3 ≤ CAP }
    ensures items { out.new.items ≡ out.old.items ++ event_bytes (PlainEvent lines) [] }
    ensures len { array_vec_len out.new ≡ array_vec_len out.old + 3 }
{
    out.push(PLAIN);
    wire::append_word16(out, lines);
}

// The command that starts a region.
fn put_event<const CAP: usize>(out: &mut ArrayVec<u8, CAP>, e: Event)
    requires { array_vec_len out.old + 5 ≤ CAP }
    ensures items { out.new.items ≡ out.old.items ++ event_bytes e [] }
    ensures short { array_vec_len out.new ≤ array_vec_len out.old + 5 }
{
    match e {
        Event::Message(m) => put_message(out, m),
        Event::Plain(lines) => put_plain(out, lines),
    }
}

// A command without operands, if it is wanted.
pub fn put_flag<const CAP: usize>(out: &mut ArrayVec<u8, CAP>, command: u8, wanted: bool)
    requires { array_vec_len out.old + 1 ≤ CAP }
    ensures items { out.new.items ≡ out.old.items ++ flag_bytes command wanted [] }
    ensures short { array_vec_len out.new ≤ array_vec_len out.old + 1 }
{
    if wanted {
        out.push(command);
    }
}

fn put_resets<const CAP: usize>(out: &mut ArrayVec<u8, CAP>, resets: u8)
    requires { array_vec_len out.old + 2 ≤ CAP }
    ensures items { out.new.items ≡ out.old.items ++ resets_bytes resets [] }
    ensures short { array_vec_len out.new ≤ array_vec_len out.old + 2 }
{
    if resets != 0 {
        out.push(RESETS);
        out.push(resets);
    }
}

// D3: what stands after the terms.
fn put_marks<const CAP: usize>(out: &mut ArrayVec<u8, CAP>, hot: bool, resets: u8, rest: bool)
    requires { array_vec_len out.old + 4 ≤ CAP }
    ensures items { out.new.items ≡ out.old.items ++ marks_bytes hot resets rest }
    ensures short { array_vec_len out.new ≤ array_vec_len out.old + 4 }
{
    put_flag(out, HOT, hot);
    put_resets(out, resets);
    put_flag(out, REST, rest);
}

// D3: appends one region.
pub fn append_region<const CAP: usize>(out: &mut ArrayVec<u8, CAP>, g: &Region)
    requires count_le_most_terms { g.now.count ≤ most_terms }
    requires room { array_vec_len out.old + 41 ≤ CAP }
    ensures items { out.new.items ≡ out.old.items ++ region_bytes g.now [] }
    ensures short { array_vec_len out.new ≤ array_vec_len out.old + 41 }
{
    put_event(out, g.event);
    put_terms(out, g);
    put_marks(out, g.hot, g.resets, g.rest);
}
