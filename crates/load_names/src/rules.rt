// The occurrence rules, by the item's table: at 32 how often each writer has occurred, at 48 each reader, where 2 stands for more too.
ghost use Rattle.std.specs.Prelude.{◌≡◌, ◌+◌, ◌≤◌, ◌<◌, min, eqb, length};
ghost use Rattle.load_names.specs.Rules.{none_twice, halves_alike, once_in_head as once_in_head_meant, once_unless as once_unless_meant, pair_kept, clause_kept};

// Stay slices, each contract with their lengths: the readers lend the item's table as one, and what it holds says its length there.

// "No writer and no reader occurs twice", for each of so many pairs.
pub fn nothing_twice(item: &[u64], pairs: usize) -> bool
    requires { (length item.now ≡ 64) × (pairs ≤ 16) }
    ensures { result ≡ none_twice item.now pairs }
{
    (0..pairs).all(|n| item[32 + n] <= 1 && item[48 + n] <= 1)
}

// "A writer occurs exactly if its reader does."
pub fn both_halves(item: &[u64], pairs: usize) -> bool
    requires { (length item.now ≡ 64) × (pairs ≤ 16) }
    ensures { result ≡ halves_alike item.now pairs }
{
    (0..pairs).all(|n| item[32 + n] == item[48 + n])
}

// Whether the one occurs exactly if the other does.
#[tactic(auto, using(std::proofs::lemmas::Bool::Decides::nat_tests))]
fn both_or_none(writers: u64, readers: u64) -> bool
    ensures { result ≡ eqb (min 1 writers) (min 1 readers) }
{
    (writers == 0) == (readers == 0)
}

// Neither half of a pair occurs twice in the head: writers are counted from 0 on, readers from 16 on.
#[tactic(auto, using(std::proofs::lemmas::Bool::Decides::nat_tests), unfolding(crate::specs::Rules::once_in_head))]
fn once_in_head(heads: &[u64], n: usize) -> bool
    requires { (length heads.now ≡ 32) × (n < 16) }
    ensures { result ≡ once_in_head_meant heads.now n }
{
    heads[n] <= 1 && heads[16 + n] <= 1
}

// No writer of a pair occurs twice, and no reader that no guard licenses.
#[tactic(auto, using(std::proofs::lemmas::Bool::Decides::nat_tests), unfolding(crate::specs::Rules::once_unless))]
fn once_unless(item: &[u64], licensed: &[u64], n: usize) -> bool
    requires { (length item.now ≡ 64) × (length licensed.now ≡ 16) × (n < 16) }
    ensures { result ≡ once_unless_meant item.now licensed.now n }
{
    item[32 + n] <= 1 && (licensed[n] != 0 || item[48 + n] <= 1)
}

// A clause's rules for one pair, with how often each half occurs in the head and 1 for each reader that a guard licenses.
#[tactic(auto, unfolding(crate::specs::Rules::pair_kept, crate::specs::Rules::both_or_none))]
fn pair_rules(item: &[u64], heads: &[u64], licensed: &[u64], n: usize) -> bool
    requires { (length item.now ≡ 64) × (length heads.now ≡ 32) × (length licensed.now ≡ 16) × (n < 16) }
    ensures { result ≡ pair_kept item.now heads.now licensed.now n }
{
    once_in_head(heads, n)
        && once_unless(item, licensed, n)
        && both_or_none(item[32 + n], item[48 + n])
}

// "No writer and no reader occurs twice", but for a licensed reader only in the head, and "a writer occurs exactly if its reader does".
pub fn clause_rules(item: &[u64], heads: &[u64], licensed: &[u64], pairs: usize) -> bool
    requires { (length item.now ≡ 64) × (length heads.now ≡ 32) × (length licensed.now ≡ 16) × (pairs ≤ 16) }
    ensures { result ≡ clause_kept item.now heads.now licensed.now pairs }
{
    (0..pairs).all(|n| pair_rules(item, heads, licensed, n))
}
