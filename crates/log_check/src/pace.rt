// The pace of a log, with the fact that its numbers are those of a plain log or of a raw one.
ghost use Rattle.std.specs.Prelude.{◌≡◌, true};
ghost use Rattle.log_check.specs.Paced.{is_paced};

// What all records of a log have in common: the byte of its messages, which for its times is one more, the time or
// stamp at which it counts moment 0, and the most ticks from a record to the next.
#[derive(Clone, Copy)]
pub struct Pace {
    pub message: u8,
    pub origin: u32,
    pub most: u64,
    pub ghost paced: { is_paced message origin most ≡ true },
}
