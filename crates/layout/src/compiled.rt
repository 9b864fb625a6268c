// A compiled chart's numbers, with what the steps over them need.
ghost use Rattle.layout.specs.View.{Compiled};

use crate::{Head, TERM_PLACES};
use model::MOST_REGIONS;

// A compiled chart: each region's key, the regions above it, the clocks that it resets, and four words of terms. Four
// arrays side by side and none of rows: each is walked by itself, and the definition `plan_chart` takes them as lists.
#[derive(Clone, Copy)]
pub struct Plan {
    pub head: Head,
    pub keys: [u64; MOST_REGIONS],
    pub above: [u32; MOST_REGIONS],
    pub resets: [u32; MOST_REGIONS],
    pub terms: [u64; TERM_PLACES],
    pub ghost compiled: { ∥ Compiled head keys above resets terms ∥₁ },
}
