ghost use Rattle.std.specs.Prelude.{◌≡◌, ◌==◌, IfOk};
ghost use Rattle.std.specs.List.{slice_split};
ghost use Rattle.rg_opts.specs.Statement.{texts};

use rg_base::no_memory::NoMemory;
use std::alloc::Global;

/// The words of a text: what stands between its spaces, empty words too. A text without a space is
/// one word.
pub fn split_words(alloc: Global, text: &str) -> Result<Vec<&str>, NoMemory>
    ensures { IfOk result (λ words. texts words.items ≡ slice_split (λ b. b == 32) text.now) }
{
    Ok(text.split(' ').collect(alloc)?)
}
