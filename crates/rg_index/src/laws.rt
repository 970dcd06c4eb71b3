ghost use Rattle.std.specs.Prelude.{◌≡◌, ℕ, List, [], true, false, Option, Some, None};
ghost use Rattle.rg_base.specs.declared.place.Place.{Place};
ghost use Rattle.rg_base.specs.declared.row.Row.{Row};
ghost use Rattle.rg_base.specs.declared.which.Which.{Which};
ghost use Rattle.rg_stmt.specs.declared.layout.Spot.{Spot};
ghost use Rattle.rg_model.specs.Layout.{put_entry, value_of, listing, homes, are_different};
ghost use Rattle.rg_model.specs.State.{Table};
ghost use Rattle.rg_index.specs.Entries.{IsRising, has_entry, without_entry};
ghost use Rattle.rg_index.specs.Listed.{IsListingOf, SetsRow, spot_row};

/// Entries that rise are determined by what they list.
pub fn listing_is_one()
    ensures { (which : Which) (row_at : Place → Option Row) (xs ys : List (ℕ × Place)) →
        IsRising xs → IsRising ys → IsListingOf which row_at xs → IsListingOf which row_at ys →
        xs ≡ ys }
{}

/// One row more is one entry more, and that wasn't there.
pub fn listing_takes_row()
    ensures absent { (which : Which) (old : Place → Option Row)
        (value : ℕ) (place : Place) (xs : List (ℕ × Place)) →
        IsListingOf which old xs → old place ≡ None → has_entry xs (value, place) ≡ false }
    ensures added { (which : Which) (old new : Place → Option Row)
        (place : Place) (row : Row) (xs : List (ℕ × Place)) →
        IsListingOf which old xs → old place ≡ None → SetsRow old new place (Some row) →
        IsListingOf which new (put_entry (value_of which row, place) xs) }
{}

/// One row fewer is one entry fewer.
pub fn listing_loses_row()
    ensures { (which : Which) (old new : Place → Option Row)
        (place : Place) (row : Row) (xs : List (ℕ × Place)) →
        IsListingOf which old xs → old place ≡ Some row → SetsRow old new place None →
        IsListingOf which new (without_entry (value_of which row, place) xs) }
{}

/// A row that changes and keeps its value leaves the listing as it was.
pub fn listing_keeps_value()
    ensures { (which : Which) (old new : Place → Option Row)
        (place : Place) (row after : Row) (xs : List (ℕ × Place)) →
        IsListingOf which old xs → old place ≡ Some row → SetsRow old new place (Some after) →
        value_of which after ≡ value_of which row → IsListingOf which new xs }
{}

/// Entries that rise and list the rows of a table at their spots are the listing of a layout.
pub fn listing_is_layouts()
    ensures { (which : Which) (row_at : Place → Option Row)
        (table : Table) (spots : List Spot) (xs : List (ℕ × Place)) →
        are_different (homes spots) ≡ true →
        ((place : Place) → row_at place ≡ spot_row table spots place) →
        IsRising xs → IsListingOf which row_at xs → xs ≡ listing which table spots }
{}
