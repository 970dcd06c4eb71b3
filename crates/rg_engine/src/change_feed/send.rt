// The changes of records, sent.
//
// 1. Each Change and each Undo is sent as a change of the row at its home, with the position of the
//    record, in the order of the records. Of other records nothing is sent.
// 2. The rows are handed in, in the same order: they were copied before the records were appended.
//    So nothing here takes memory, and nothing is refused.
ghost use Rattle.std.specs.Prelude.{◌≡◌, ◌++◌, ◌≤◌, List, length};
ghost use Rattle.rg_base.specs.declared.change.Change.{Change as ChangeOf};
ghost use Rattle.rg_laws_utility.specs.RecordChanges.Changed.{changes_at, changes_in, rows_after};
ghost use Rattle.rg_feed.specs.Ends.{sent_items};
ghost use Rattle.rg_engine.specs.ChangeFeed.Sent.{home_changed};
ghost use Rattle.rg_feed.specs.SentItems.Keeps.{sent_changes};

use rg_base::change::Change;
use rg_base::place::Place;
use rg_base::row::Row;
use rg_feed::fold::item::Item;
use rg_feed::outlet::FeedOut;
use rg_record::record::{Kind, Record};
use std::collections::VecDeque;

// The home of the row that a record of this kind changes.
fn home_changed(kind: &Kind) -> Option<Place>
    ensures { result ≡ home_changed kind.now }
{
    match kind {
        Kind::Change { home, .. } => Some(*home),
        Kind::Undo { home, .. } => Some(*home),
        _ => None,
    }
}

// Sends the change that a record makes, if it makes one. Its row is the first of these.
fn send_change(entry: &Record, rows: &mut VecDeque<Option<Row>>, outlet: &mut FeedOut)
    requires room { length rows.old.items ≤ outlet.old.spare }
    ensures room { length rows.new.items ≤ outlet.new.spare }
    ensures ring { outlet.new.ring ≡ outlet.old.ring }
    ensures rows { (more : List ChangeOf)
        → rows.old.items ≡ rows_after (changes_at entry.now.position entry.now.kind ++ more)
        → rows.new.items ≡ rows_after more }
    ensures items { (more : List ChangeOf)
        → rows.old.items ≡ rows_after (changes_at entry.now.position entry.now.kind ++ more)
        → sent_items outlet.new
        ≡ sent_items outlet.old
        ++ sent_changes (changes_at entry.now.position entry.now.kind) }
{
    let Some(home) = home_changed(&entry.kind) else {
        return;
    };
    let Some(after) = rows.pop_front() else {
        return;
    };
    outlet.send(Item::Change(Change {
        position: entry.position,
        home,
        after,
    }));
}

/// Sends the changes that these records make, in their order, where these are their rows. It takes
/// room that was reserved, and no memory.
pub fn send_changes(records: &[Record], rows: VecDeque<Option<Row>>, outlet: &mut FeedOut)
    requires rows { rows.items ≡ rows_after (changes_in records.now) }
    requires room { length rows.items ≤ outlet.old.spare }
    ensures items { sent_items outlet.new
        ≡ sent_items outlet.old ++ sent_changes (changes_in records.now) }
    ensures ring { outlet.new.ring ≡ outlet.old.ring }
{
    let mut rows = rows;
    for entry in records {
        send_change(entry, &mut rows, outlet);
    }
}
