// An option that is not set has its default. An ALTER changes only those that it sets.
ghost use Rattle.std.specs.Prelude.{◌≡◌};
ghost use Rattle.rg_opts.specs.Given.{none_set, with_setting, is_set, with_defaults, alteration_of};

use crate::keyword::Keyword;
use crate::setting::Setting;
use rg_base::control::{Alteration, Deadline, Longlog, Maxro};
use rg_base::options::{DrainFor, Options};

/// The options that are set.
#[derive(Clone, Copy, Debug, PartialEq, Eq)]
pub struct Settings {
    pub maxro: Option<Maxro>,
    pub longlog: Option<Longlog>,
    pub delay: Option<u32>,
    pub deadline: Option<Deadline>,
    pub drain: Option<DrainFor>,
    pub wait: Option<u32>,
    pub retry: Option<u8>,
    pub pause: Option<u32>,
    pub pctfree: Option<u8>,
    pub freepage: Option<u8>,
}

impl Settings {
    pub fn new() -> Settings
        ensures { result ≡ none_set }
    {
        Settings {
            maxro: None,
            longlog: None,
            delay: None,
            deadline: None,
            drain: None,
            wait: None,
            retry: None,
            pause: None,
            pctfree: None,
            freepage: None,
        }
    }

    /// Whether the option is set.
    pub fn is_set(&self, keyword: Keyword) -> bool
        ensures { result ≡ is_set self.now keyword }
    {
        match keyword {
            Keyword::Maxro => self.maxro.is_some(),
            Keyword::Longlog => self.longlog.is_some(),
            Keyword::Delay => self.delay.is_some(),
            Keyword::Deadline => self.deadline.is_some(),
            Keyword::Drain => self.drain.is_some(),
            Keyword::DrainWait => self.wait.is_some(),
            Keyword::Retry => self.retry.is_some(),
            Keyword::RetryDelay => self.pause.is_some(),
            Keyword::Pctfree => self.pctfree.is_some(),
            Keyword::Freepage => self.freepage.is_some(),
        }
    }

    pub fn put(&mut self, setting: Setting)
        ensures { self.new ≡ with_setting self.old setting }
    {
        match setting {
            Setting::Maxro(maxro) => self.maxro = Some(maxro),
            Setting::Longlog(longlog) => self.longlog = Some(longlog),
            Setting::Delay(seconds) => self.delay = Some(seconds),
            Setting::Deadline(deadline) => self.deadline = Some(deadline),
            Setting::Drain(drain) => self.drain = Some(drain),
            Setting::DrainWait(seconds) => self.wait = Some(seconds),
            Setting::Retry(times) => self.retry = Some(times),
            Setting::RetryDelay(seconds) => self.pause = Some(seconds),
            Setting::Pctfree(hundredths) => self.pctfree = Some(hundredths),
            Setting::Freepage(pages) => self.freepage = Some(pages),
        }
    }

    /// The options of a control statement, with the defaults of those that are not set.
    pub fn with_defaults(&self) -> Options
        ensures { result ≡ with_defaults self.now }
    {
        Options {
            maxro: self.maxro.unwrap_or(Maxro::Within(300)),
            longlog: self.longlog.unwrap_or(Longlog::Continue),
            delay: self.delay.unwrap_or(1200),
            deadline: self.deadline.unwrap_or(Deadline::Never),
            drain: self.drain.unwrap_or(DrainFor::Writers),
            wait: self.wait.unwrap_or(30),
            retry: self.retry.unwrap_or(3),
            pause: self.pause.unwrap_or(30),
            pctfree: self.pctfree.unwrap_or(5),
            freepage: self.freepage.unwrap_or(0),
        }
    }

    /// The options that an ALTER changes.
    pub fn alteration(&self) -> Alteration
        ensures { result ≡ alteration_of self.now }
    {
        Alteration {
            maxro: self.maxro,
            longlog: self.longlog,
            delay: self.delay,
            deadline: self.deadline,
        }
    }
}
