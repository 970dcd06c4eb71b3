// Which values an option takes.
//
// 1. MAXRO takes a number of seconds, or DEFER. LONGLOG takes CONTINUE, TERM or DRAIN.
// 2. DELAY, DRAIN_WAIT and RETRY_DELAY take a number of seconds. DEADLINE takes one, or NONE.
// 3. DRAIN takes WRITERS or ALL.
// 4. RETRY and FREEPAGE take 0 to 255, PCTFREE takes 0 to 99.
// 5. A number of seconds is 0 to 4294967295. Numbers are decimal digits, without a sign or a
//    leading zero.
ghost use Rattle.std.specs.Prelude.{ℕ, ◌≡◌, ◌≢◌, ◌≤◌, ◌<◌, ◌^◌, IfNone, IfSome};
ghost use Rattle.std.specs.Fmt.{decimal};
ghost use Rattle.rg_base.specs.declared.control.Maxro.{Maxro};
ghost use Rattle.rg_base.specs.declared.control.Longlog.{Longlog};
ghost use Rattle.rg_base.specs.declared.control.Deadline.{Deadline};
ghost use Rattle.rg_base.specs.declared.options.DrainFor.{DrainFor};
ghost use Rattle.rg_opts.specs.Spelling.{maxro_word, IsMaxro, longlog_word, deadline_word};
ghost use Rattle.rg_opts.specs.Spelling.{IsDeadline, drain_word, keyword_of, value_word, IsSetting};
ghost use Rattle.rg_opts.specs.declared.setting.Setting.{Setting};

use crate::keyword::Keyword;
use rg_base::control::{Deadline, Longlog, Maxro};
use rg_base::number::read_number_within;
use rg_base::options::DrainFor;

/// An option and its value.
#[derive(Clone, Copy, Debug, PartialEq, Eq)]
pub enum Setting {
    Maxro(Maxro),
    Longlog(Longlog),
    Delay(u32),
    Deadline(Deadline),
    Drain(DrainFor),
    DrainWait(u32),
    Retry(u8),
    RetryDelay(u32),
    Pctfree(u8),
    Freepage(u8),
}

// This option, with the value that the word spells.
pub fn read_setting(keyword: Keyword, word: &str) -> Option<Setting>
    ensures none { IfNone result ((setting : Setting) →
        IsSetting setting → keyword_of setting ≡ keyword → word.now ≢ value_word setting) }
    ensures found { IfSome result (λ setting. IsSetting setting × (keyword_of setting ≡ keyword)
        × (word.now ≡ value_word setting)) }
{
    match keyword {
        Keyword::Maxro => read_maxro(word).map(Setting::Maxro),
        Keyword::Longlog => read_longlog(word).map(Setting::Longlog),
        Keyword::Delay => read_seconds(word).map(Setting::Delay),
        Keyword::Deadline => read_deadline(word).map(Setting::Deadline),
        Keyword::Drain => read_drain(word).map(Setting::Drain),
        Keyword::DrainWait => read_seconds(word).map(Setting::DrainWait),
        Keyword::Retry => read_small(word, u8::MAX).map(Setting::Retry),
        Keyword::RetryDelay => read_seconds(word).map(Setting::RetryDelay),
        Keyword::Pctfree => read_small(word, 99).map(Setting::Pctfree),
        Keyword::Freepage => read_small(word, u8::MAX).map(Setting::Freepage),
    }
}

fn read_maxro(word: &str) -> Option<Maxro>
    ensures none { IfNone result ((maxro : Maxro) → IsMaxro maxro → word.now ≢ maxro_word maxro) }
    ensures found { IfSome result (λ maxro. IsMaxro maxro × (word.now ≡ maxro_word maxro)) }
{
    if word == "DEFER" {
        return Some(Maxro::Defer);
    }
    Some(Maxro::Within(read_seconds(word)?))
}

fn read_longlog(word: &str) -> Option<Longlog>
    ensures none { IfNone result ((longlog : Longlog) → word.now ≢ longlog_word longlog) }
    ensures found { IfSome result (λ longlog. word.now ≡ longlog_word longlog) }
{
    match word {
        "CONTINUE" => Some(Longlog::Continue),
        "TERM" => Some(Longlog::Term),
        "DRAIN" => Some(Longlog::Drain),
        _ => None,
    }
}

fn read_deadline(word: &str) -> Option<Deadline>
    ensures none { IfNone result ((deadline : Deadline) →
        IsDeadline deadline → word.now ≢ deadline_word deadline) }
    ensures found { IfSome result (λ deadline.
        IsDeadline deadline × (word.now ≡ deadline_word deadline)) }
{
    if word == "NONE" {
        return Some(Deadline::Never);
    }
    Some(Deadline::At(read_seconds(word)?))
}

fn read_drain(word: &str) -> Option<DrainFor>
    ensures none { IfNone result ((drain : DrainFor) → word.now ≢ drain_word drain) }
    ensures found { IfSome result (λ drain. word.now ≡ drain_word drain) }
{
    match word {
        "WRITERS" => Some(DrainFor::Writers),
        "ALL" => Some(DrainFor::All),
        _ => None,
    }
}

// A number of seconds.
pub fn read_seconds(word: &str) -> Option<u32>
    ensures none { IfNone result ((n : ℕ) → n < 2 ^ 32 → word.now ≢ decimal n) }
    ensures found { IfSome result (λ n. word.now ≡ decimal n) }
{
    Some(read_number_within(word, u64::from(u32::MAX))? as u32)
}

// A number up to a limit.
fn read_small(word: &str, limit: u8) -> Option<u8>
    ensures none { IfNone result ((n : ℕ) → n ≤ limit → word.now ≢ decimal n) }
    ensures found { IfSome result (λ n. (n ≤ limit) × (word.now ≡ decimal n)) }
{
    Some(read_number_within(word, u64::from(limit))? as u8)
}
