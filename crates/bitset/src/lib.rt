// Sets of numbers below 32, as the bits of a u32.
#![tactic(auto)]

ghost use Rattle.std.specs.Prelude.{◌≡◌, false, not, ℕ, ◌<◌, ◌≤◌};
ghost use Rattle.std.proofs.Math.Bool.{So};
ghost use Rattle.bitset.specs.Set.{contains, inserted, is_subset, union, within};

pub fn member(set: u32, i: u32) -> bool
    requires { i < 32 }
    ensures { result ≡ contains set i }
{
    (set >> i) % 2 == 1
}

pub fn insert(set: u32, i: u32) -> u32
    requires { i < 32 }
    ensures { result ≡ inserted set i }
{
    set | 1 << i
}

pub fn join(a: u32, b: u32) -> u32
    ensures { result ≡ union a b }
{
    a | b
}

pub fn subset(a: u32, b: u32) -> bool
    ensures { result ≡ is_subset a b }
{
    a & b == a
}

// The lowest number that is not a member. Not by `trailing_ones`: in 64 bits the sum is never 0, so that nothing is
// tested, and each record asks.
pub fn run(set: u32) -> u32
    ensures members { (i : ℕ) → i < result → So (contains set i) }
    ensures gap { contains set result ≡ false }
    ensures few { result ≤ 32 }
{
    (u64::from(set) + 1).trailing_zeros()
}

// The numbers below 32 that are not members.
pub fn others(set: u32) -> u32
    ensures { (i : ℕ) → i < 32 → contains result i ≡ not (contains set i) }
{
    !set
}

// Every member is below n.
pub fn within(n: u32, set: u32) -> bool
    ensures { result ≡ within n set }
{
    32 <= n || set < 1 << n
}
