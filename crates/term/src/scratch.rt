// Words of the scratch by their place: those of a region, and those of a compound.
ghost use Rattle.std.specs.Prelude.{◌≡◌, ◌+◌, ◌%◌, ◌<◌, length, get_or, set};
ghost use Rattle.term.specs.Words.{tag_in};

use crate::word::{TAGS, index};

// The word at so many words from a place, and setting it.
pub fn word_at(s: &[u64], from: usize, i: usize) -> u64
    requires { from + i < length s.now }
    ensures { result ≡ get_or s.now (from + i) 0 }
{
    s[from + i]
}

pub fn set_at(s: &mut [u64], from: usize, i: usize, w: u64)
    requires { from + i < length s.old }
    ensures { s.new ≡ set s.old (from + i) w }
{
    s[from + i] = w;
}

// The number of arguments of the compound at a place, and the i-th of them, from 1 on.
pub fn count(s: &[u64], p: usize) -> usize
    requires { p < length s.now }
    ensures { result ≡ tag_in (get_or s.now p 0) }
{
    index(s[p] % TAGS)
}

pub fn argument(s: &[u64], p: usize, i: usize) -> u64
    requires { p + i < length s.now }
    ensures { result ≡ get_or s.now (p + i) 0 }
{
    word_at(s, p, i)
}
