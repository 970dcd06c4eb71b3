// How a control statement and an ALTER are read.
//
// 1. A control statement is REORG TABLESPACE SHRLEVEL CHANGE and then options, none or more.
// 2. What an ALTER changes is one option or more.
// 3. Where the words are not accepted, the fault is the first word, counted from 0, at which no
//    accepted list of words goes on. It is the number of words where they end too early.
ghost use Rattle.std.specs.Prelude.{ℕ, List, ◌∷◌, ◌++◌, ◌≡◌, ◌≢◌, IfOk, IfErr, IfSome, IfNone};
ghost use Rattle.rg_opts.specs.Given.{none_set, with_defaults};
ghost use Rattle.rg_opts.specs.Reading.{HeadStops};
ghost use Rattle.rg_opts.specs.Statement.{texts, control_head, IsControlStatement, IsAlteration};
ghost use Rattle.rg_opts.specs.Stops.{IsFault, AcceptsControl, AcceptsAlteration};

use crate::reading::{Scope, read_settings};
use crate::settings::Settings;
use rg_base::control::Alteration;
use rg_base::options::Options;
use thiserror::Error;

/// Why a statement was not read.
#[derive(Clone, Copy, Debug, PartialEq, Eq, Error)]
pub enum OptionFault {
    /// Word `at`, counted from 0, is the first at which no accepted statement goes on. It is the
    /// number of words where they end too early.
    #[error("no statement goes on at word {at}")]
    Word { at: u32 },
}

/// The options of a control statement, from its words, `REORG` first. What they leave out has its
/// default. It takes no memory.
pub fn read_control(words: &[&str]) -> Result<Options, OptionFault>
    ensures options { IfOk result (IsControlStatement (texts words.now)) }
    ensures fault { IfErr result (IsFault AcceptsControl (texts words.now)) }
{
    let options = match split_head(words) {
        Ok(options) => options,
        Err(at) => return Err(OptionFault::Word { at }),
    };
    match read_settings(options, Scope::Every) {
        Ok(settings) => Ok(settings.with_defaults()),
        Err(at) => Err(OptionFault::Word { at: 4 + at }),
    }
}

/// The options of a control statement that names none.
pub fn default_options() -> Options
    ensures { result ≡ with_defaults none_set }
{
    Settings::new().with_defaults()
}

/// What an ALTER changes, from the words after `ALTER`. It takes no memory.
pub fn read_alter(words: &[&str]) -> Result<Alteration, OptionFault>
    ensures alteration { IfOk result (IsAlteration (texts words.now)) }
    ensures fault { IfErr result (IsFault AcceptsAlteration (texts words.now)) }
{
    if words.is_empty() {
        return Err(OptionFault::Word { at: 0 });
    }
    match read_settings(words, Scope::Alterable) {
        Ok(settings) => Ok(settings.alteration()),
        Err(at) => Err(OptionFault::Word { at }),
    }
}

// The words after the head of a control statement. An error is the first word at which the head
// does not go on.
fn split_head<'a, 'b>(words: &'a [&'b str]) -> Result<&'a [&'b str], u32>
    ensures rest { IfOk result (λ rest. texts words.now ≡ control_head ++ texts rest.now) }
    ensures stops { IfErr result (HeadStops (texts words.now)) }
{
    let Some(rest) = strip_word(words, "REORG") else {
        return Err(0);
    };
    let Some(rest) = strip_word(rest, "TABLESPACE") else {
        return Err(1);
    };
    let Some(rest) = strip_word(rest, "SHRLEVEL") else {
        return Err(2);
    };
    let Some(rest) = strip_word(rest, "CHANGE") else {
        return Err(3);
    };
    Ok(rest)
}

// The words after this one, where they begin with it.
fn strip_word<'a, 'b>(words: &'a [&'b str], word: &str) -> Option<&'a [&'b str]>
    ensures none { IfNone result ((rest : List (List ℕ)) → texts words.now ≢ word.now ∷ rest) }
    ensures found { IfSome result (λ rest. texts words.now ≡ word.now ∷ texts rest.now) }
{
    let (first, rest) = words.split_first()?;
    if *first == word { Some(rest) } else { None }
}
