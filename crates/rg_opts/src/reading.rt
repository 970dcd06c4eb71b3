// How the options after a statement's head are read.
//
// 1. An option is its name and its value, one word each. Options stand in any order.
// 2. An option stands at most once. So at most ten options stand in a statement.
// 3. A control statement takes each option. An ALTER takes MAXRO, LONGLOG, DELAY and DEADLINE.
ghost use Rattle.std.specs.Prelude.{◌≡◌, ◌≢◌, ◌≤◌, IfOk, IfErr, IfSome, IfNone};
ghost use Rattle.rg_opts.specs.Reading.{IsFree, BeginsWith, FailsAt, AreGiven};
ghost use Rattle.rg_opts.specs.Spelling.{keyword_word, keyword_of, IsSetting};
ghost use Rattle.rg_opts.specs.Statement.{texts};
ghost use Rattle.rg_opts.specs.Stops.{StopsAt, AcceptsSettings};
ghost use Rattle.rg_opts.specs.declared.keyword.Keyword.{Keyword};

use crate::keyword::{Keyword, read_keyword};
use crate::setting::{Setting, read_setting};
use crate::settings::Settings;

/// Which options a statement takes.
#[derive(Clone, Copy, Debug, PartialEq, Eq)]
pub enum Scope {
    /// Each of them.
    Every,
    /// Those that an ALTER may change.
    Alterable,
}

// The option that has this name, where the statement takes it and it is not set.
fn free_keyword(word: &str, scope: Scope, settings: &Settings) -> Option<Keyword>
    ensures none { IfNone result ((keyword : Keyword) → IsFree scope settings.now keyword →
        word.now ≢ keyword_word keyword) }
    ensures found { IfSome result (λ keyword. IsFree scope settings.now keyword
        × (word.now ≡ keyword_word keyword)) }
{
    let keyword = read_keyword(word)?;
    if settings.is_set(keyword) {
        return None;
    }
    match scope {
        Scope::Alterable if !keyword.is_alterable() => None,
        _ => Some(keyword),
    }
}

// The option with which the words begin. An error is the word, counted from 0, at which no option
// goes on.
fn first_setting(words: &[&str], scope: Scope, settings: &Settings) -> Result<Setting, u32>
    ensures found { IfOk result (λ setting. IsFree scope settings.now (keyword_of setting)
        × IsSetting setting × BeginsWith (texts words.now) setting) }
    ensures none { IfErr result (FailsAt scope settings.now (texts words.now)) }
{
    let Some((name, rest)) = words.split_first() else {
        return Err(0);
    };
    let Some(keyword) = free_keyword(name, scope, settings) else {
        return Err(0);
    };
    let Some((value, _)) = rest.split_first() else {
        return Err(1);
    };
    read_setting(keyword, value).ok_or(1)
}

// The options that the words set. An error is the first word at which no options go on.
pub fn read_settings(words: &[&str], scope: Scope) -> Result<Settings, u32>
    ensures set { IfOk result (AreGiven scope (texts words.now)) }
    ensures stops { IfErr result (StopsAt (AcceptsSettings scope) (texts words.now)) }
    ensures few { IfErr result (λ at. at ≤ 21) }
{
    let mut settings = Settings::new();
    let mut at: u32 = 0;
    while (at as usize) < words.len() {
        match first_setting(&words[at as usize..], scope, &settings) {
            Ok(setting) => settings.put(setting),
            Err(place) => return Err(at + place),
        }
        at += 2;
    }
    Ok(settings)
}
