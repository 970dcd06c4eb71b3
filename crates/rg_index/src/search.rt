// Searches in entries that rise. Each takes logarithmic time.
ghost use Rattle.std.specs.Prelude.{◌≡◌, ◌+◌, ◌<◌, nat_le, not, true, false, length, remove};
ghost use Rattle.std.specs.Prelude.{MatchOption};
ghost use Rattle.rg_model.specs.Layout.{is_entry_before, same_entry};
ghost use Rattle.rg_index.specs.Entries.{IsRising, has_entry, without_entry, entries_within};
ghost use Rattle.rg_index.specs.Split.{IsCutBy};

use rg_base::place::Place;

/// Whether an entry is before another: by value, then by page, then by slot.
pub fn is_before(a: &(u64, Place), b: &(u64, Place)) -> bool
    ensures { result ≡ is_entry_before a.now b.now }
{
    if a.0 != b.0 {
        return a.0 < b.0;
    }
    if a.1.page != b.1.page {
        return a.1.page < b.1.page;
    }
    a.1.slot < b.1.slot
}

/// Whether two entries are the same.
pub fn is_same(a: &(u64, Place), b: &(u64, Place)) -> bool
    ensures { result ≡ same_entry a.now b.now }
{
    a.0 == b.0 && a.1.page == b.1.page && a.1.slot == b.1.slot
}

/// How many entries are not behind this one.
pub fn count_through(entries: &[(u64, Place)], entry: (u64, Place)) -> usize
    requires { IsRising entries.now }
    ensures { IsCutBy (λ e. not (is_entry_before entry e)) entries.now result }
{
    entries.partition_point(|e| !is_before(&entry, e))
}

/// How many entries have a value below this one.
pub fn count_below(entries: &[(u64, Place)], value: u64) -> usize
    requires { IsRising entries.now }
    ensures { IsCutBy (λ e. nat_le (e.0 + 1) value) entries.now result }
{
    entries.partition_point(|e| e.0 < value)
}

/// How many entries have a value up to this one.
pub fn count_up_to(entries: &[(u64, Place)], value: u64) -> usize
    requires { IsRising entries.now }
    ensures { IsCutBy (λ e. nat_le e.0 value) entries.now result }
{
    entries.partition_point(|e| e.0 <= value)
}

/// The index of an entry.
pub fn find(entries: &[(u64, Place)], entry: (u64, Place)) -> Option<usize>
    requires { IsRising entries.now }
    ensures there { MatchOption result
        (has_entry entries.now entry ≡ false) (λ _. has_entry entries.now entry ≡ true) }
    ensures index { MatchOption result (without_entry entry entries.now ≡ entries.now)
        (λ i. (i < length entries.now) × (remove entries.now i ≡ without_entry entry entries.now)) }
{
    let through = count_through(entries, entry);
    if through == 0 {
        return None;
    }
    let last = through - 1;
    if is_same(&entry, &entries[last]) {
        return Some(last);
    }
    None
}

/// The entries with values from `lo` to `hi`, both included.
pub fn find_within(entries: &[(u64, Place)], lo: u64, hi: u64) -> &[(u64, Place)]
    requires { IsRising entries.now }
    ensures { result.now ≡ entries_within lo hi entries.now }
{
    let from = count_below(entries, lo);
    let to = count_up_to(entries, hi);
    if to <= from {
        return &entries[..0];
    }
    &entries[from..to]
}
