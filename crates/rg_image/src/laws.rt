// 1. The log of an image is read page by page, up to the first page of zeros.
// 2. A log page is decided by the records before it. So records that an image spells are its log,
//    and more records leave what is spelled as it is.
// 3. Where each page follows the rule for log pages, the image spells the records of its pages.
// 4. A log has its records from its pages in one way, and keeps the rule for log pages or breaks it
//    at one page.
// 5. A tidy log whose pages follow the rule is spelled by its records.
// 6. What is spelled follows the rule for log pages and is tidy, where positions count from 1; and
//    those of a chain do.
// 7. The records are a chain, or one page has the first that does not follow.
// 8. Only a write of set Log changes the log.
ghost use Rattle.std.specs.Prelude.{◌≡◌, ◌≤◌, ◌+◌, ◌++◌, ◌∷◌, [], ℕ, List, length, take};
ghost use Rattle.rg_base.specs.declared.set.Set.{Set};
ghost use Rattle.rg_base.specs.declared.set.Set.TheVariants.{Log};
ghost use Rattle.rg_outside.specs.Calls.{Image};
ghost use Rattle.rg_outside.specs.Capacities.{Capacities};
ghost use Rattle.rg_outside.specs.Moments.{put};
ghost use Rattle.rg_record.specs.declared.record.Record.{Record};
ghost use Rattle.rg_image.specs.Kept.{AreEntries};
ghost use Rattle.rg_image.specs.Log.{Spells, SpellsFrom, log_of, IsZeroLog};
ghost use Rattle.rg_image.specs.Pack.{end_of, start};
ghost use Rattle.rg_image.specs.Rules.{ArePositions, BreaksChain, BreaksLogPages, HasLogPages};
ghost use Rattle.rg_image.specs.Rules.{IsChain};
ghost use Rattle.rg_image.specs.Rules.{IsTidyLog};

/// An image whose log pages spell records has them as its log.
pub fn spelled_records_are_the_log()
    ensures { (capacity : ℕ) (rs : List Record) (i : Image) → AreEntries rs
        → (end_of start rs).page ≤ capacity → Spells capacity rs i → log_of capacity i ≡ rs }
{}

/// An image whose log pages spell a part of the records, no less than `low`, has that part as its
/// log.
pub fn spelled_part_is_the_log()
    ensures { (capacity low : ℕ) (rs : List Record) (i : Image) → AreEntries rs
        → (end_of start rs).page ≤ capacity → SpellsFrom capacity rs low i
        → (n : ℕ) × (low ≤ n) × (n ≤ length rs) × (log_of capacity i ≡ take n rs) }
{}

/// Where each log page follows the rule, the records of the pages are the log.
pub fn sound_pages_have_the_log()
    ensures { (capacity : ℕ) (rs : List Record) (i : Image) → HasLogPages capacity i rs
        → log_of capacity i ≡ rs }
{}

/// The log pages have one list of records.
pub fn records_of_pages_are_determined()
    ensures { (capacity : ℕ) (rs others : List Record) (i : Image) → HasLogPages capacity i rs
        → HasLogPages capacity i others → rs ≡ others }
{}

/// No image keeps the rule for log pages and breaks it.
pub fn log_pages_are_kept_or_broken()
    ensures { (capacity page : ℕ) (rs : List Record) (i : Image) → HasLogPages capacity i rs
        → BreaksLogPages capacity i page → ⊥ }
{}

/// One page is the first that breaks the rule for log pages.
pub fn one_log_page_is_named()
    ensures { (capacity page other : ℕ) (i : Image) → BreaksLogPages capacity i page
        → BreaksLogPages capacity i other → page ≡ other }
{}

/// A tidy log whose pages follow the rule is spelled by their records.
pub fn tidy_logs_are_spelled()
    ensures { (capacity : ℕ) (rs : List Record) (i : Image) → HasLogPages capacity i rs
        → IsTidyLog capacity i → Spells capacity rs i }
{}

/// Log pages that spell records with the positions from 1 on follow the rule, and are tidy.
pub fn spelled_logs_are_sound()
    ensures pages { (capacity : ℕ) (rs : List Record) (i : Image) → AreEntries rs
        → ArePositions rs → (1 ≤ length rs → (end_of start rs).page ≤ capacity)
        → Spells capacity rs i → HasLogPages capacity i rs }
    ensures tidy { (capacity : ℕ) (rs : List Record) (i : Image) → AreEntries rs
        → ArePositions rs → (1 ≤ length rs → (end_of start rs).page ≤ capacity)
        → Spells capacity rs i → IsTidyLog capacity i }
{}

/// The records of a chain have the positions from 1 on, and so have records that are appended.
pub fn chains_count_positions()
    ensures chain { (capacities : Capacities) (rs : List Record) → IsChain capacities rs
        → ArePositions rs }
    ensures more { (rs : List Record) (entry : Record) → ArePositions rs
        → entry.position.0 ≡ length rs + 1 → ArePositions (rs ++ entry ∷ []) }
{}

/// No records are a chain and break it.
pub fn chains_are_kept_or_broken()
    ensures { (capacities : Capacities) (page : ℕ) (rs : List Record) → IsChain capacities rs
        → BreaksChain capacities rs page → ⊥ }
{}

/// One page has the first record that does not follow.
pub fn one_page_breaks_the_chain()
    ensures { (capacities : Capacities) (page other : ℕ) (rs : List Record)
        → BreaksChain capacities rs page → BreaksChain capacities rs other → page ≡ other }
{}

/// What spells a part of the records spells a part of more records.
pub fn more_records_leave_what_is_spelled()
    ensures { (capacity low : ℕ) (rs more : List Record) (i : Image) → SpellsFrom capacity rs low i
        → SpellsFrom capacity (rs ++ more) low i }
{}

/// A log set of zeros spells no record.
pub fn zeros_spell_no_record()
    ensures { (capacity : ℕ) (rs : List Record) (i : Image) → IsZeroLog capacity i
        → SpellsFrom capacity rs 0 i }
{}

/// A write of another set leaves what the log pages spell.
pub fn other_sets_leave_the_log()
    ensures { (set : Set) (capacity low page : ℕ) (rs : List Record) (bytes : List ℕ) (i : Image)
        → (set ≡ Log → ⊥) → SpellsFrom capacity rs low i
        → SpellsFrom capacity rs low (put i set page bytes) }
{}
