// Conditions: terms are decided by one table, of five relations by three signs of a difference.
#![tactic(auto)]

ghost use Rattle.std.specs.Prelude.{◌≡◌, ◌<◌, pos, ◌-ℤ◌};
ghost use Rattle.condition.specs.Table.{row_of, column_of, sign_of, table_says, TableRule};
ghost use Rattle.condition.specs.Rows.{row_bits, row_says, biased, compared, TestsExactly};

use model::{Length, Relation};

// The sign of a difference: it is below zero, zero, or above zero. An enum of its own, not std's `Ordering`: that is no
// plainer, because no sign is computed when it runs, and `Less` and `Equal` are names of relations here.
#[derive(Clone, Copy)]
pub enum Sign {
    Below,
    Same,
    Above,
}

// C18, the table: a row for each relation, <, ≤, =, ≥ and >, with an entry for each sign.
const SAYS: [bool; 15] = [
    true, // <, below
    false, // <, same
    false, // <, above
    true, // ≤, below
    true, // ≤, same
    false, // ≤, above
    false, // =, below
    true, // =, same
    false, // =, above
    false, // ≥, below
    true, // ≥, same
    true, // ≥, above
    false, // >, below
    false, // >, same
    true, // >, above
];

// Added to a signed number of 32 bits so that the sum is not negative.
const BIAS: u64 = 0x8000_0000;

// From here on the 32 bits of n stand for a negative number.
const SIGN: u32 = 0x8000_0000;

// The relation's row.
fn row_of(e: Relation) -> usize
    ensures value { result ≡ row_of e }
    ensures bound { result < 5 }
{
    usize::from(u8::from(e))
}

// The sign's place in a row.
fn column_of(s: Sign) -> usize
    ensures value { result ≡ column_of s }
    ensures bound { result < 3 }
{
    s as usize
}

// The table's entry: whether the relation holds for differences of this sign.
pub fn says(e: Relation, s: Sign) -> bool
    ensures entry { result ≡ table_says e s }
    ensures rule { TableRule }
{
    SAYS[row_of(e) * 3 + column_of(s)]
}

// The relation's row, an entry a bit.
fn look_up_row(e: Relation) -> u64
    ensures value { result ≡ row_bits e }
    ensures bound { result < 8 }
{
    u64::from(says(e, Sign::Below))
        + u64::from(says(e, Sign::Same)) * 2
        + u64::from(says(e, Sign::Above)) * 4
}

// The same. An arm knows its relation, so that the compiler looks its row up.
pub fn row_bits(e: Relation) -> u64
    ensures value { result ≡ row_bits e }
    ensures bound { result < 8 }
{
    match e {
        Relation::Less => look_up_row(Relation::Less),
        Relation::AtMost => look_up_row(Relation::AtMost),
        Relation::Equal => look_up_row(Relation::Equal),
        Relation::AtLeast => look_up_row(Relation::AtLeast),
        Relation::More => look_up_row(Relation::More),
    }
}

// The number that n's 32 bits stand for, with BIAS added.
pub fn biased(n: u32) -> u64
    ensures value { result ≡ biased n }
    ensures bound { result < 0x1_0000_0000 }
{
    if n < SIGN {
        return BIAS + u64::from(n);
    }
    u64::from(n) - BIAS
}

// The row's entry at the sign of a less b: below zero, above zero, zero. Unequal numbers that reach the last line are
// above zero, with a yes. In this form each test becomes a branch.
fn row_says(row: u64, a: u64, b: u64) -> bool
    ensures { result ≡ row_says row (sign_of (pos a -ℤ pos b)) }
{
    if a < b {
        return row % 2 == 1;
    }
    if b < a && row / 4 % 2 == 0 {
        return false;
    }
    a != b || row / 2 % 2 == 1
}

// A term's test: the entry of its relation's row at the sign of the exact difference, `first - second` less the number
// n, which has BIAS added; the bound on n leaves room for the sum. For a term of one clock the second length is 0.
pub fn compares(row: u64, first: Length, second: Length, n: u64) -> bool
    requires { n < 0x8000_0000_0000_0000 }
    ensures value { result ≡ compared row first.0 second.0 n }
    ensures exact { TestsExactly }
{
    let x = BIAS + u64::from(first.0);
    let y = n + u64::from(second.0);
    row_says(row, x, y)
}
