// How often each half of each variable occurs, where head, guards and goals of a clause are counted apart: from 32 on in a table like the item's, where 2 stands
// for more too.
ghost use Rattle.std.specs.Prelude.{◌≡◌, ℕ, ◌+◌, ◌≤◌, ◌<◌, min, length, get_or};
ghost use Rattle.load_items.specs.Counts.{Copied, Added};

// The counts of one table become another's.
// Stays a loop: `copy_from_slice` calls memmove, which the archive for C would then need from its host.
pub fn copy_counts(source: &[u64], table: &mut [u64])
    requires { (length source.now ≡ 64) × (length table.old ≡ 64) }
    ensures { Copied source.now table.old table.new }
{
    for i in 32..64 {
        table[i] = source[i];
    }
}

// The counts of one table are added to another's.
pub fn add_counts(table: &mut [u64], source: &[u64])
    requires source_len { (length source.now ≡ 64) × (length table.old ≡ 64) }
    requires by_index { (i : ℕ) → i < 32 → (get_or source.now (32 + i) 0 ≤ 2) × (get_or table.old (32 + i) 0 ≤ 2) }
    ensures { Added source.now table.old table.new }
{
    for i in 32..64 {
        table[i] = (table[i] + source[i]).min(2);
    }
}
