// Lengths counted up to the ceiling.
ghost use Rattle.std.specs.Prelude.{◌≡◌, ◌+◌, ◌≤◌, length};
ghost use Rattle.meaning.specs.Bytes.{decimal as in_decimal};
ghost use Rattle.report_pairs.specs.Laid.{capped};

// One above the longest report.
pub const CEILING: usize = 16777217;

// So many bytes more.
pub fn further(at: usize, n: usize) -> usize
    requires { at ≤ 16777217 }
    ensures { result ≡ capped (at + n) }
{
    at.saturating_add(n).min(CEILING)
}

// How many decimal digits a number has.
pub fn digits(n: u64) -> usize
    ensures { (result ≡ length (in_decimal n)) × (result ≤ 20) }
{
    let mut left = n;
    let mut k = 1;
    while 10 <= left {
        left = left / 10;
        k += 1;
    }
    k
}
