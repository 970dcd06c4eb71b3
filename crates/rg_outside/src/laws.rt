ghost use Rattle.std.specs.Prelude.{◌≡◌, ◌≤◌, ◌+◌, ℕ, Bool, List, [], ◌∷◌, ◌++◌, length};
ghost use Rattle.std.specs.Prelude.{if◌then◌else◌};
ghost use Rattle.std.specs.List.{AllByRecursion};
ghost use Rattle.rg_base.specs.declared.set.Set.{Set};
ghost use Rattle.rg_outside.specs.Calls.{Image, Call, Synced, Nothing, Content, effect_of};
ghost use Rattle.rg_outside.specs.Calls.{is_failed, Told, is_same_page, read_of, left_of};
ghost use Rattle.rg_outside.specs.Calls.{faults_of};
ghost use Rattle.rg_outside.specs.Made.{then_call};
ghost use Rattle.rg_outside.specs.Moments.{IsImage, IsImageAt, moment, read_at, SamePages};

/// At each moment the image as it reads is one that a crash may leave.
pub fn what_reads_is_left()
    ensures { (told : Told) (c : ℕ) → IsImageAt told c (read_at told c) }
{}

/// After a sync that succeeded, and until something is written, a crash leaves the pages as they
/// read.
pub fn sync_makes_certain()
    ensures { (told : Told) (since : List Call) (i : Image) →
        AllByRecursion (λ call. effect_of call ≡ Nothing) since →
        IsImage (record told { calls = since ++ Synced ∷ told.calls }) i →
        SamePages told.capacities (read_of told.first told.calls) i }
{}

/// A write adds one content to one page, also where it failed, and changes no other.
pub fn write_adds_one()
    ensures { (told : Told) (call : Call) (set : Set) (page : ℕ) (bytes : List ℕ) (reads : Bool) →
        (s : Set) (p : ℕ) → effect_of call ≡ Content set page bytes reads →
        left_of told.first (call ∷ told.calls) s p
        ≡ (if is_same_page set page s p then left_of told.first told.calls s p ++ bytes ∷ []
        else left_of told.first told.calls s p) }
{}

/// A call more leaves every earlier moment as it was.
pub fn earlier_moments_stay()
    ensures { (told : Told) (call : Call) (c : ℕ) → c ≤ length told.calls
        → moment (then_call told call) c ≡ moment told c }
{}

/// A call that failed is one fault more.
pub fn failed_call_counts()
    ensures { (call : Call) (calls : List Call)
        → faults_of (call ∷ calls)
        ≡ (if is_failed call then faults_of calls + 1 else faults_of calls) }
{}
