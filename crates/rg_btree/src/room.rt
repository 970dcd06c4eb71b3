// Moves between vectors that have the room, so they take no memory.
ghost use Rattle.std.specs.Prelude.{◌≡◌, ◌≤◌, ◌<◌, ◌+◌, ◌-◌, [], ◌∷◌, ◌++◌, length, take, drop};
ghost use Rattle.std.specs.Prelude.{insert, vec_capacity, vec_len};
ghost use Rattle.rg_btree.specs.Moved.{moved};

use std::alloc::Global;

/// Puts an element at the end.
pub fn push_within<T: Drop>(to: &mut Vec<T, Global>, x: T)
    requires { vec_len to.old < vec_capacity to.old }
    ensures items { to.new.items ≡ to.old.items ++ x ∷ [] }
    ensures room { vec_capacity to.old ≤ vec_capacity to.new }
{
    let pushed = to.push(x);
    prove!(pushed.is_ok());
}

/// Puts an element at an index.
pub fn insert_within<T: Drop>(to: &mut Vec<T, Global>, at: usize, x: T)
    requires room { vec_len to.old < vec_capacity to.old }
    requires within { at ≤ vec_len to.old }
    ensures items { to.new.items ≡ insert to.old.items at x }
    ensures room { vec_capacity to.old ≤ vec_capacity to.new }
{
    let inserted = to.insert(at, x);
    prove!(inserted.is_ok());
}

/// Moves the elements from an index on into an empty vector.
pub fn move_behind<T: Drop>(
    from: &mut Vec<T, Global>,
    at: usize,
    mut to: Vec<T, Global>,
) -> Vec<T, Global>
    requires within { at ≤ length from.old.items }
    requires empty { to.items ≡ [] }
    requires room { length from.old.items - at ≤ vec_capacity to }
    ensures left { from.new.items ≡ take at from.old.items }
    ensures moved { result.items ≡ drop at from.old.items }
    ensures room { vec_capacity from.new ≡ vec_capacity from.old }
    ensures result_room { vec_capacity to ≤ vec_capacity result }
{
    while from.len() > at {
        if let Some(x) = from.pop() {
            push_within(&mut to, x);
        }
    }
    to.reverse();
    to
}

/// Moves all of a vector behind another's elements.
pub fn append_within<T: Drop>(to: &mut Vec<T, Global>, from: &mut Vec<T, Global>)
    requires { length to.old.items + length from.old.items ≤ vec_capacity to.old }
    ensures items { to.new.items ≡ to.old.items ++ from.old.items }
    ensures empty { from.new.items ≡ [] }
    ensures room { vec_capacity to.old ≤ vec_capacity to.new }
    ensures from_room { vec_capacity from.new ≡ vec_capacity from.old }
{
    let appended = to.append(from);
    prove!(appended.is_ok());
}

/// Moves the first element of the right vector behind those of the left.
pub fn move_first<T: Drop>(left: &mut Vec<T, Global>, right: &mut Vec<T, Global>)
    requires some { 0 < length right.old.items }
    requires room { length left.old.items < vec_capacity left.old }
    ensures left { left.new.items
        ≡ take (length left.old.items + 1) (left.old.items ++ right.old.items) }
    ensures right { right.new.items
        ≡ drop (length left.old.items + 1) (left.old.items ++ right.old.items) }
    ensures left_room { vec_capacity left.old ≤ vec_capacity left.new }
    ensures right_room { vec_capacity right.new ≡ vec_capacity right.old }
{
    let first = right.remove(0);
    push_within(left, first);
}

/// Moves the last element of the left vector before those of the right.
pub fn move_last<T: Drop>(left: &mut Vec<T, Global>, right: &mut Vec<T, Global>)
    requires some { 0 < length left.old.items }
    requires room { length right.old.items < vec_capacity right.old }
    ensures left { left.new.items
        ≡ take (length left.old.items - 1) (left.old.items ++ right.old.items) }
    ensures right { right.new.items
        ≡ drop (length left.old.items - 1) (left.old.items ++ right.old.items) }
    ensures left_room { vec_capacity left.new ≡ vec_capacity left.old }
    ensures right_room { vec_capacity right.old ≤ vec_capacity right.new }
{
    if let Some(last) = left.pop() {
        insert_within(right, 0, last);
    }
}

/// Moves one element from the longer vector to the shorter.
pub fn share_out<T: Drop>(left: &mut Vec<T, Global>, right: &mut Vec<T, Global>)
    requires left_some { 0 < length left.old.items }
    requires right_some { 0 < length right.old.items }
    requires left_room { length left.old.items < vec_capacity left.old }
    requires right_room { length right.old.items < vec_capacity right.old }
    ensures left { left.new.items
        ≡ take (moved (length left.old.items) (length right.old.items))
        (left.old.items ++ right.old.items) }
    ensures right { right.new.items
        ≡ drop (moved (length left.old.items) (length right.old.items))
        (left.old.items ++ right.old.items) }
    ensures kept_left { vec_capacity left.old ≤ vec_capacity left.new }
    ensures kept_right { vec_capacity right.old ≤ vec_capacity right.new }
{
    if left.len() < right.len() {
        move_first(left, right);
        return;
    }
    if right.len() < left.len() {
        move_last(left, right);
    }
}
