// The search for a number by a test.
ghost use Rattle.std.specs.Prelude.{◌≡◌, not, ◌&&◌, Bool, ℕ, ◌<◌};
ghost use Rattle.bitset.specs.Set.{contains};
ghost use Rattle.model.specs.Chart.{most_regions};
ghost use Rattle.base.specs.Lists.{first};
ghost use Rattle.firing.specs.Parts.{found_of};

use model::MOST_REGIONS;

// The lowest number that is no member of `skipped` and passes the test. A loop by hand: the set of what is skipped grows
// with each number, and the next number is its first gap.
pub fn first_outside<F: Fn(usize) -> bool>(skipped: u32, test: F) -> Option<usize>
    requires { (i : ℕ) → i < most_regions → F.pre test i }
    ensures { (t : ℕ → Bool) → ((i : ℕ) (b : Bool) → i < most_regions → F.post test i b → b ≡ t i)
        → found_of result ≡ first most_regions (λ i. not (contains skipped i) && t i) }
{
    let mut skip = skipped;
    let mut i = bitset::run(skip) as usize;
    while i < MOST_REGIONS {
        if test(i) {
            return Some(i);
        }
        skip = bitset::insert(skip, i as u32);
        i = bitset::run(skip) as usize;
    }
    None
}
