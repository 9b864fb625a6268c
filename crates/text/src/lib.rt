// Numbers in decimal, appended to a text of fixed capacity.
#![tactic(auto)]

ghost use Rattle.std.specs.Prelude.{◌≡◌, List, ℕ, ◌+◌, ◌≤◌, ◌++◌, length};
ghost use Rattle.arrayvec.specs.ArrayVec.{array_vec_len};
ghost use Rattle.text.specs.Text.{Spells, decimal_of};

use arrayvec::ArrayVec;
use itoa::Buffer;

// A number in decimal (P9): its digits spell it so, and no other text does.
pub fn append_decimal<const CAP: usize>(out: &mut ArrayVec<u8, CAP>, n: u64)
    requires { array_vec_len out.old + length (decimal_of n) ≤ CAP }
    ensures text { out.new.items ≡ out.old.items ++ decimal_of n }
    ensures short { array_vec_len out.new ≤ array_vec_len out.old + 20 }
    ensures spelling { Spells n (decimal_of n) × ((t : List ℕ) → Spells n t → t ≡ decimal_of n) }
{
    let mut buffer = Buffer::new();
    wire::append(out, buffer.format(n).as_bytes());
}
