// Zeroing the needed part of the scratch, or some of its words.
// Stay loops over places: `fill` takes twice as long.
ghost use Rattle.std.specs.Prelude.{◌≡◌, ◌++◌, ◌+◌, ◌≤◌, length, drop, replicate};
ghost use Rattle.term.specs.Frames.{zeroed};

// The first n words are zero afterwards, and all beyond them is as it was.
pub fn clear(s: &mut [u64], n: usize)
    requires { n ≤ length s.old }
    ensures { s.new ≡ replicate n 0 ++ drop n s.old }
{
    for i in 0..n {
        s[i] = 0;
    }
}

// So many words from one on are zero afterwards, and all others are as they were.
pub fn clear_part(s: &mut [u64], from: usize, n: usize)
    requires { from + n ≤ length s.old }
    ensures { s.new ≡ zeroed from n s.old }
{
    for i in 0..n {
        s[from + i] = 0;
    }
}
