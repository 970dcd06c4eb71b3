// Rows are equal where their columns are, byte for byte.
ghost use Rattle.std.specs.Prelude.{◌≡◌, ◌↔◌, IsTrue};

use rg_base::row::Row;

fn is_same_row(a: &Row, b: &Row) -> bool
    ensures { IsTrue result ↔ (a.now ≡ b.now) }
{
    a.key == b.key && a.clus == b.clus && a.cat == b.cat && a.text.as_slice() == b.text.as_slice()
}

/// Whether both are the same row, or both none.
pub fn is_same_option(a: &Option<Row>, b: &Option<Row>) -> bool
    ensures { IsTrue result ↔ (a.now ≡ b.now) }
{
    match (a, b) {
        (None, None) => true,
        (Some(x), Some(y)) => is_same_row(x, y),
        (None, Some(_)) | (Some(_), None) => false,
    }
}
