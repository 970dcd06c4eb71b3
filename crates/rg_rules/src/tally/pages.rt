// The pages of a new copy.
// (1) Where FREEPAGE is n above 0, an empty page follows each n filled ones.
ghost use Rattle.std.specs.Prelude.{◌≡◌, IfOk};
ghost use Rattle.rg_model.specs.Packed.{page_at, page_count};

use crate::tally::sums::sum;
use rg_base::no_memory::NoMemory;

/// FREEPAGE: the number of the k-th filled page.
pub fn page_at(freepage: u8, k: u64) -> Result<u64, NoMemory>
    ensures { IfOk result (λ page. page ≡ page_at freepage k) }
{
    if freepage == 0 {
        return Ok(k);
    }
    sum(k, k.saturating_sub(1) / u64::from(freepage))
}

/// FREEPAGE: all pages, where k are filled.
pub fn page_count(freepage: u8, k: u64) -> Result<u64, NoMemory>
    ensures { IfOk result (λ pages. pages ≡ page_count freepage k) }
{
    if freepage == 0 {
        return Ok(k);
    }
    sum(k, k / u64::from(freepage))
}
