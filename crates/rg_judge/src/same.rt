// Tests of sameness: of replies.
ghost use Rattle.std.specs.Prelude.{◌≡◌};
ghost use Rattle.rg_model.specs.Same.{same_list, same_number, same_row, same_reply};

use rg_base::row::Row;
use rg_stmt::stmt::Reply;

/// The rows have the same values and text.
pub fn same_row(a: &Row, b: &Row) -> bool
    ensures { result ≡ same_row a.now b.now }
{
    a.key == b.key
        && (a.clus == b.clus && (a.cat == b.cat && a.text.as_slice() == b.text.as_slice()))
}

// Row for row.
fn same_rows(a: &[Row], b: &[Row]) -> bool
    ensures { result ≡ same_list same_row a.now b.now }
{
    let mut left = b;
    for x in a {
        match left {
            [y, rest @ ..] => {
                if !same_row(x, y) {
                    return false;
                }
                left = rest;
            }
            [] => return false,
        }
    }
    left.is_empty()
}

// Key for key.
fn same_keys(a: &[u64], b: &[u64]) -> bool
    ensures { result ≡ same_list same_number a.now b.now }
{
    let mut left = b;
    for x in a {
        match left {
            [y, rest @ ..] => {
                if *x != *y {
                    return false;
                }
                left = rest;
            }
            [] => return false,
        }
    }
    left.is_empty()
}

/// The replies are the same.
pub fn same_reply(a: &Reply, b: &Reply) -> bool
    ensures { result ≡ same_reply a.now b.now }
{
    match (a, b) {
        (Reply::Done, Reply::Done)
        | (Reply::Absent, Reply::Absent)
        | (Reply::Duplicate, Reply::Duplicate)
        | (Reply::Drained, Reply::Drained)
        | (Reply::Device, Reply::Device)
        | (Reply::Down, Reply::Down)
        | (Reply::NoMemory, Reply::NoMemory) => true,
        (Reply::Found(x), Reply::Found(y)) => same_row(x, y),
        (Reply::Listed(x), Reply::Listed(y)) => same_rows(x.as_slice(), y.as_slice()),
        (Reply::Keyed(x), Reply::Keyed(y)) => same_keys(x.as_slice(), y.as_slice()),
        (Reply::Held(x), Reply::Held(y)) | (Reply::Victim(x), Reply::Victim(y)) => x.0 == y.0,
        (Reply::Full { need: x }, Reply::Full { need: y }) => x == y,
        (
            Reply::LogFull {
                need: x,
                left: over,
            },
            Reply::LogFull {
                need: y,
                left: under,
            },
        ) => x == y && over == under,
        _ => false,
    }
}
