// Which regions are above each region, as sets of region numbers counted from 0.
#![tactic(auto)]

ghost use Rattle.std.specs.Prelude.{◌≡◌, ℕ, min, ◌<◌, ◌≤◌, get_or};
ghost use Rattle.model.specs.Chart.{most_regions, touched_at};
ghost use Rattle.order.specs.Order.{is_over, with_over, gathered, above_sets, above_of, Decides};

use model::{Chart, MOST_REGIONS};

// What decides the order: the lines that each region touches, and the first main region.
#[derive(Clone, Copy)]
struct Steps {
    lines: [u16; MOST_REGIONS],
    prechart: usize,
}

impl Steps {
    // O1, O2: whether region a is over b.
    #[tactic(auto, unfolding(crate::specs::Order::is_over))]
    fn is_over(&self, a: usize, b: usize) -> bool
        requires { (a < most_regions) × (b < most_regions) }
        ensures { result ≡ is_over (λ i. get_or self.now.lines i 0) self.now.prechart a b }
    {
        let across = (a < self.prechart) & (self.prechart <= b);
        let one_half = (b < self.prechart) | (self.prechart <= a);
        across | ((a < b) & (one_half & ((self.lines[a] & self.lines[b]) != 0)))
    }

    // The set; with region a and those above it, if a is over b.
    fn with_over(&self, above: &[u32; MOST_REGIONS], set: u32, a: usize, b: usize) -> u32
        requires { (a < most_regions) × (b < most_regions) }
        ensures { result ≡ with_over (λ i. get_or self.now.lines i 0) self.now.prechart above.now set a b }
    {
        let more = bitset::join(bitset::insert(set, a as u32), above[a]);
        if self.is_over(a, b) { more } else { set }
    }

    // The regions above b. Regions with lower numbers have their sets already.
    #[tactic(auto, unfolding(crate::specs::Order::gathered))]
    fn gather(&self, above: &[u32; MOST_REGIONS], b: usize) -> u32
        requires { b < most_regions }
        ensures { result ≡ gathered (λ i. get_or self.now.lines i 0) self.now.prechart above.now b b }
    {
        let mut set = 0;
        for a in 0..b {
            set = self.with_over(above, set, a, b);
        }
        set
    }

    // The sets of the first `count` regions; the others are empty.
    #[tactic(auto, unfolding(crate::specs::Order::above_sets))]
    fn sets(&self, count: usize) -> [u32; MOST_REGIONS]
        requires { count ≤ most_regions }
        ensures { result ≡ above_sets (λ i. get_or self.now.lines i 0) self.now.prechart count }
    {
        let mut above = [0; MOST_REGIONS];
        for b in 0..count {
            above[b] = self.gather(&above, b);
        }
        above
    }
}

// The lines that each region touches.
fn lines_of(c: Chart) -> [u16; MOST_REGIONS]
    ensures { (i : ℕ) → i < most_regions → get_or result i 0 ≡ touched_at c i }
{
    let mut lines = [0; MOST_REGIONS];
    for (i, g) in c.regions.iter().enumerate() {
        lines[i] = model::touched(g.event);
    }
    lines
}

// For each region the set of those above it.
pub fn above_sets(c: Chart) -> [u32; MOST_REGIONS]
    ensures sets { result ≡ above_of c }
    ensures order { Decides c result }
{
    let steps = Steps {
        lines: lines_of(c),
        prechart: usize::from(c.prechart),
    };
    steps.sets(usize::from(c.count).min(MOST_REGIONS))
}
