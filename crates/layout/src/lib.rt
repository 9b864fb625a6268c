// The layout of a compiled chart: its numbers, in a head and in arrays beside it, and the word of a term with its test.
#![tactic(auto)]

ghost use Rattle.std.specs.Prelude.{◌≡◌};
ghost use Rattle.layout.specs.View.{tested};

pub mod compiled;

pub use compiled::Plan;
use model::{Length, MOST_REGIONS, MOST_TERMS};

pub const TERM_PLACES: usize = MOST_REGIONS * MOST_TERMS;

// A term's word: the first clock below SECOND_PLACE, then the second clock, its relation's row of the table and its
// number, each at its place. The number comes highest, so that its room is not a question.
pub const SECOND_PLACE: u64 = 0x10;

pub const ROW_PLACE: u64 = 0x100;

pub const NUMBER_PLACE: u64 = 0x1000;

pub const CLOCK_CODES: u64 = 16;

// A compiled chart's numbers; `plain` and `hot` are sets of regions.
#[derive(Clone, Copy)]
pub struct Head {
    pub count: usize,
    pub prechart: usize,
    pub clocks: usize,
    pub plain: u32,
    pub hot: u32,
}

// The word's term holds, given the values of its clocks.
pub fn word_holds(word: u64, first: Length, second: Length) -> bool
    ensures { result ≡ tested word first.0 second.0 }
{
    condition::compares(word / ROW_PLACE, first, second, word / NUMBER_PLACE)
}
