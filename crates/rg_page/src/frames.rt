// Frames: the pages of a copy, as they are read and changed.
//
// 1. Pages are numbered from 1. `with_page` lends one and holds it until `let_go`; a page is
//    changed while it is held, and nothing then refuses it but its own bytes.
// 2. A new page is reserved first, which may fail, and added later, which may not.
// 3. A page may be given up to the volume between calls. Then its content is in the list of pages,
//    and its position is not above the one that the log is known to be forced to (`gave`).
// 4. A caller keeps five frames spare before it starts, and lets go at its end.
ghost use Rattle.std.specs.Prelude.{◌≡◌, ◌≤◌, ◌<◌, ◌+◌, ℕ, List, Bool, true, length, IfOk, IfErr};
ghost use Rattle.std.specs.Prelude.{OnOk, OnErr, ⊤, None};
ghost use Rattle.std.specs.Borrow.{follows_so, sem};
ghost use Rattle.std.specs.Option.{option_copied};
ghost use mathlib.Core.Option.{none};
ghost use Rattle.rg_home.specs.Pages.{PartFits};
ghost use Rattle.rg_page.specs.Content.{Content, content_at};
ghost use Rattle.rg_page.specs.Seen.{Seen, Held, Failed, Reserved, Added, WasSet, LetGo, Forced};
ghost use Rattle.rg_page.specs.Seen.{FaultIs};

use crate::page::{Page, PartFault};
use rg_base::part::Part;
use rg_base::position::Position;
use rg_base::row::Row;
use rg_base::tran::Tran;

/// A page could not be read or written: a call of the volume failed, or gave what is no page.
#[derive(Clone, Copy, Debug, PartialEq, Eq, thiserror::Error)]
#[error("a page could not be read or written")]
pub struct Device;

/// Why no page is reserved.
#[derive(Clone, Copy, Debug, PartialEq, Eq, thiserror::Error)]
pub enum FrameFault {
    #[error("a page could not be written")]
    Device,
    #[error("out of memory")]
    NoMemory,
}

/// The pages of a copy.
pub trait Frames {
    ghost seen: { Self → Seen };

    /// From one to the other, a page was given up only with its content in this list, and with a
    /// position of at most the one given.
    ghost gave: { List Content → ℕ → Self → Self → Type 0 };

    /// How many pages there are.
    fn count(&self) -> u32
        ensures { result ≡ length (seen self.now).pages };

    /// Lends a page, which is held from then on.
    fn with_page(&mut self, number: u32) -> Result<&Page, Device>
        requires low { 1 ≤ number }
        requires high { number ≤ length (seen self.old).pages }
        requires spare { 1 ≤ (seen self.old).spare }
        ensures* read { sem 𝓛 (follows_so Self.row Self.row self.entry.ghost_name none (λ _ _. ⊤)
            (λ f.
            IfOk result (λ page. page.now ≡ content_at (seen f).pages number)
            × OnOk result (Held number (seen self.old) (seen f))
            × OnErr result (Failed (seen self.old) (seen f))
            × gave (seen self.old).pages (seen self.old).forced self.old f)) }
        ensures again { (seen self.old).held number ≡ true → OnErr result ⊥ };

    /// Reserves a page, which `add_page` takes.
    fn reserve_page(&mut self) -> Result<(), FrameFault>
        requires spare { 1 ≤ (seen self.old).spare }
        requires below { length (seen self.old).pages + (seen self.old).reserved <
            (seen self.old).limit }
        ensures ok { OnOk result (Reserved (seen self.old) (seen self.new)) }
        ensures err { IfErr result (λ fault. FaultIs fault (seen self.old) (seen self.new)) }
        ensures gave { gave (seen self.old).pages (seen self.old).forced self.old self.new };

    /// Adds an empty page at the end. It is held. It takes no memory.
    fn add_page(&mut self)
        requires one { 1 ≤ (seen self.old).reserved }
        requires below { length (seen self.old).pages < (seen self.old).limit }
        ensures added { Added (seen self.old) (seen self.new) }
        ensures gave { (pages : List Content) (n : ℕ) → gave pages n self.old self.new };

    /// Applies a part to its page, which is held. It takes no memory.
    fn set_page(
        &mut self,
        part: &Part,
        tran: Tran,
        after: Option<&Row>,
        position: Position,
    ) -> Result<(), PartFault>
        requires low { 1 ≤ part.now.page }
        requires high { part.now.page ≤ length (seen self.old).pages }
        requires held { (seen self.old).held part.now.page ≡ true }
        ensures ok { OnOk result (WasSet part.now tran.0 (option_copied after.entry) position.0
            (seen self.old) (seen self.new)) }
        ensures fits { OnOk result (PartFits part.now.page
            (content_at (seen self.old).pages part.now.page).slots tran.0
            (option_copied after.entry) part.now) }
        ensures unfit { OnErr result (PartFits part.now.page
            (content_at (seen self.old).pages part.now.page).slots tran.0
            (option_copied after.entry) part.now → ⊥) }
        ensures err { OnErr result (seen self.new ≡ seen self.old) }
        ensures gave { (pages : List Content) (n : ℕ) → gave pages n self.old self.new };

    /// Lets all pages go.
    fn let_go(&mut self)
        ensures let_go { LetGo (seen self.old) (seen self.new) }
        ensures gave { (pages : List Content) (n : ℕ) → gave pages n self.old self.new };

    /// Tells how far the log is forced.
    fn tell_forced(&mut self, position: Position)
        ensures forced { Forced position.0 (seen self.old) (seen self.new) }
        ensures gave { (pages : List Content) (n : ℕ) → gave pages n self.old self.new };

    /// How many frames are spare.
    fn spare(&self) -> u32
        ensures { result ≡ (seen self.now).spare };

    /// What is held can only be let go.
    ghost spare_idle: { (f : Self) → (seen f).spare ≤ (seen f).idle };

    /// There are no more pages than there can be, and no more than numbers of pages.
    ghost few: { (f : Self) → length (seen f).pages ≤ (seen f).limit };

    ghost limited: { (f : Self) → (seen f).limit ≤ 4294967295 };

    /// Each page has the number of its place in the list, and is of the copy.
    ghost numbered: { (f : Self) (n : ℕ) → 1 ≤ n → n ≤ length (seen f).pages
        → (content_at (seen f).pages n).number ≡ n };

    ghost gave_none: { (pages : List Content) (n : ℕ) (f : Self) → gave pages n f f };

    /// One run and then another, of which nothing is asked where it is no longer sure what comes
    /// back.
    ghost gave_more: { (pages : List Content) (n : ℕ) (a b c : Self) → gave pages n a b
        → ((seen c).sure ≡ true → gave pages n b c) → gave pages n a c };
}
