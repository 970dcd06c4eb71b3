// Sums of counts. A count that outgrows 64 bits needs more entries than memory holds; it is
// answered as out of memory.
ghost use Rattle.std.specs.Prelude.{◌≡◌, ◌+◌, IfOk};

use rg_base::no_memory::NoMemory;

/// The sum of two counts.
pub fn sum(a: u64, b: u64) -> Result<u64, NoMemory>
    ensures { IfOk result (λ s. s ≡ a + b) }
{
    match a.checked_add(b) {
        Some(s) => Ok(s),
        None => Err(NoMemory),
    }
}

/// The sum of two small counts.
pub fn sum_small(a: u32, b: u32) -> Result<u32, NoMemory>
    ensures { IfOk result (λ s. s ≡ a + b) }
{
    match a.checked_add(b) {
        Some(s) => Ok(s),
        None => Err(NoMemory),
    }
}
