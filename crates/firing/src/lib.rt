// The regions of a compiled chart are sought, tested and fired, until no plain region is ready.
#![tactic(auto)]

ghost use Rattle.std.specs.Prelude.{◌≡◌, ◌&&◌, cond, List, ℕ, ◌<◌, ◌≤◌, ◌-◌, ◌^◌, eqb, ltb, get_or};
ghost use Rattle.std.proofs.Math.Bool.{So};
ghost use Rattle.bitset.specs.Set.{contains};
ghost use Rattle.model.specs.Chart.{most_regions, most_clocks};
ghost use Rattle.base.specs.Lists.{first, all_below, some_below};
ghost use Rattle.rounds.specs.Chart.{Chart};
ghost use Rattle.rounds.specs.Rows.{Ready};
ghost use Rattle.rounds.specs.Machine.{ready_plain, opening as opened};
ghost use Rattle.layout.specs.View.{Within, Covers, failing_by, plan_chart, Compiled};
ghost use Rattle.layout.specs.Plans.{chart_of_plan};
ghost use Rattle.firing.specs.Places.{moments_of, place_at};
ghost use Rattle.firing.specs.Parts.{found_of, ready_by, sought_by};
ghost use Rattle.firing.specs.Parts.{value_at, fire_by, taken_at, move_of};

mod scan;
mod settled;

use layout::{CLOCK_CODES, Head, Plan, SECOND_PLACE};
use model::{CLOCK_PLACES, Length, MOST_REGIONS, MOST_TERMS, Moment, Place};
use scan::first_outside;
pub use settled::{Failure, Settled};

// The lowest region of the set `plain` that is ready. It may be any set; a chart's own gives the chart's `ready_plain`.
pub fn ready_plain(plain: u32, above: &[u32; MOST_REGIONS], fired: u32) -> Option<usize>
    ensures set { (count : ℕ) → Within count plain → found_of result
        ≡ first count (λ i. contains plain i && ready_by above.now fired i) }
    ensures chart { (h : Head) (keys resets terms : List ℕ) → h.plain ≡ plain
        → Compiled h keys above.now resets terms → found_of result
        ≡ ready_plain (plan_chart h keys above.now resets terms) (contains fired) }
{
    let skipped = bitset::join(fired, bitset::others(plain));
    first_outside(skipped, |i| bitset::subset(above[i], fired))
}

// The ready region that has the message, sought in the set `among`, which has every region with this message.
pub fn ready_for(
    keys: &[u64; MOST_REGIONS],
    above: &[u32; MOST_REGIONS],
    among: u32,
    fired: u32,
    code: u64,
) -> Option<usize>
    ensures { (count : ℕ) → Covers count keys.now code among
        → found_of result
        ≡ first count (λ i. eqb (get_or keys.now i 0) code && ready_by above.now fired i) }
{
    let skipped = bitset::join(fired, bitset::others(among));
    first_outside(
        skipped,
        |i| keys[i] == code && bitset::subset(above[i], fired),
    )
}

// Whether some region has the message; `among` is as above.
fn is_known(plan: &Plan, among: u32, code: u64) -> bool
    ensures { (count : ℕ) → Covers count plan.now.keys code among
        → result ≡ some_below count (λ i. eqb (get_or plan.now.keys i 0) code) }
{
    first_outside(bitset::others(among), |i| plan.keys[i] == code).is_some()
}

// Which regions have a message: a ready one; only some that are not ready; or none. An enum of its own, and no Option:
// these are three ways to go on.
#[derive(Clone, Copy)]
pub enum Sought {
    Ready(usize),
    Unready,
    Foreign,
}

// Which regions have the message.
pub fn seek(plan: &Plan, among: u32, fired: u32, code: u64) -> Sought
    ensures { (count : ℕ) → Covers count plan.now.keys code among
        → result ≡ sought_by plan.now.keys plan.now.above count fired code }
{
    if let Some(i) = ready_for(&plan.keys, &plan.above, among, fired, code) {
        return Sought::Ready(i);
    }
    if is_known(plan, among, code) {
        return Sought::Unready;
    }
    Sought::Foreign
}

// The value at moment t of a term's second clock, reset at m; 0 for a term of one clock, which has no second.
fn second_value(b: usize, m: Moment, t: Moment) -> Length
    requires { m.0 ≤ t.0 }
    ensures { result.0 ≡ cond (ltb b most_clocks) (t.0 - m.0) 0 }
{
    if b < CLOCK_PLACES {
        t.since(m)
    } else {
        Length(0)
    }
}

// C19: the test of region i's condition at moment t: 0 if all its terms hold, otherwise the first that fails, counted
// from 1. It is a number, as the theory's `failing` is.
fn failing(plan: &Plan, resets: &[Moment; CLOCK_PLACES], i: usize, t: Moment) -> u8
    requires i_lt_most_regions { i < most_regions }
    requires by_index { (c : ℕ) → moments_of resets.now c ≤ t.0 }
    ensures { result ≡ failing_by plan.now.terms i (value_at plan.now.head.clocks t.0 resets.now) }
{
    for j in 0..MOST_TERMS {
        let word = plan.terms[i * MOST_TERMS + j];
        if word == 0 {
            return 0;
        }
        let a = (word % CLOCK_CODES) as usize;
        let b = (word / SECOND_PLACE % CLOCK_CODES) as usize;
        let first = t.since(resets[a % CLOCK_PLACES]);
        let second = second_value(b, resets[b % CLOCK_PLACES], t);
        if !layout::word_holds(word, first, second) {
            return j as u8 + 1;
        }
    }
    0
}

// The reset moments after the clocks of the set are reset at moment t.
fn reset_clocks(set: u32, old: [Moment; CLOCK_PLACES], t: Moment) -> [Moment; CLOCK_PLACES]
    requires { (c : ℕ) → So (contains set c) → c < most_clocks }
    ensures { (c : ℕ) → moments_of result c ≡ cond (contains set c) t.0 (moments_of old c) }
{
    if set == 0 {
        return old;
    }
    let mut out = old;
    for (c, moment) in out.iter_mut().enumerate() {
        if bitset::member(set, c as u32) {
            *moment = t;
        }
    }
    out
}

// The place with region i fired at moment t, its clocks reset.
fn fire(plan: &Plan, p: Place, i: usize, t: Moment) -> Place
    requires { i < most_regions }
    ensures { place_at result ≡ fire_by plan.now.resets t.0 p i }
{
    Place {
        fired: bitset::insert(p.fired, i as u32),
        resets: reset_clocks(plan.resets[i], p.resets, t),
    }
}

// T12 to T15: the ready region that has the message, and then each lowest ready plain one, is tested and fired.
pub fn take_region(plan: &Plan, p: Place, i: usize, t: Moment) -> Settled
    requires ready { Ready (chart_of_plan plan.now) (contains p.fired) i }
    requires by_index { (c : ℕ) → moments_of p.resets c ≤ t.0 }
    ensures { move_of result ≡ taken_at (chart_of_plan plan.now) t.0 (place_at p) i }
{
    let mut place = p;
    let mut region = i;
    // A loop by hand: each region that fires may make another one ready.
    loop {
        let term = failing(plan, &place.resets, region, t);
        if term != 0 {
            return Settled {
                failure: Some(Failure { region, term }),
                place,
            };
        }
        place = fire(plan, place, region, t);
        let Some(next) = ready_plain(plan.head.plain, &plan.above, place.fired) else {
            return Settled {
                failure: None,
                place,
            };
        };
        region = next;
    }
}

// The set of all numbers below n.
pub fn below(n: usize) -> u32
    requires { n ≤ most_regions }
    ensures { result ≡ 2 ^ n - 1 }
{
    let i = n as u32;
    ((1u64 << i) - 1) as u32
}

// All regions below n are fired.
pub fn all_fired(n: usize, fired: u32) -> bool
    requires { n ≤ most_regions }
    ensures { result ≡ all_below n (contains fired) }
{
    bitset::subset(below(n), fired)
}

// T22: the place at which a round opens at moment t.
pub fn opening(clocks: usize, t: Moment) -> Place
    requires { clocks ≤ most_clocks }
    ensures { (C : Chart) → C.clocks ≡ clocks → place_at result ≡ opened C t.0 }
{
    let zero = Moment(0);
    let resets = reset_clocks(below(clocks), [zero; CLOCK_PLACES], t);
    Place { fired: 0, resets }
}
