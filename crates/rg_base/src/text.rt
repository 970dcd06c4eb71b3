ghost use Rattle.std.specs.Prelude.{◌≡◌, IfOk};
ghost use Rattle.rg_base.specs.Text.{IsText};
ghost use Rattle.rg_base.specs.Words.{is_dashes};

use crate::no_memory::NoMemory;
use std::alloc::Global;
use std::marker::Model;

/// The greatest length of a text, in bytes.
pub const TEXT_LIMIT: usize = 800;

/// The text of a row: 0 to 800 bytes, each a printing character other than the space, from `!` to
/// `~`. It is seen as the list of its bytes.
#[derive(Debug, Drop)]
pub struct Text {
    bytes: Vec<u8>,
}

impl Model for Text {
    ghost use Rattle.std.specs.Prelude.{List, ℕ};
    ghost use Rattle.rg_base.specs.Text.{IsText};

    ghost Value = { List ℕ };

    ghost view = { λ t. t.bytes.items };

    ghost invariant = { λ t. IsText t.bytes.items };
}

impl Text {
    pub fn new(bytes: Vec<u8>) -> Text
        requires { IsText bytes.items }
        ensures { result ≡ bytes.items }
    {
        Text { bytes }
    }

    pub fn as_slice(&self) -> &[u8]
        ensures bytes { result.now ≡ self.now }
        ensures text { IsText self.now }
    {
        self.bytes.as_slice()
    }

    /// An equal text. It takes memory for its bytes.
    pub fn copy(&self, alloc: Global) -> Result<Text, NoMemory>
        ensures { IfOk result (λ text. text ≡ self.now) }
    {
        let bytes = self.bytes.as_slice().to_vec(alloc)?;
        Ok(Text { bytes })
    }

    /// The same bytes, without memory.
    pub fn into_vec(self) -> Vec<u8>
        ensures bytes { result.items ≡ self }
        ensures text { IsText self }
    {
        let Text { bytes } = self;
        bytes
    }
}

/// Each byte is `-`, or there is none. Such a text is written with one `-` more.
pub fn is_dashes(bytes: &[u8]) -> bool
    ensures { result ≡ is_dashes bytes.now }
{
    bytes.iter().all(|byte| *byte == b'-')
}
