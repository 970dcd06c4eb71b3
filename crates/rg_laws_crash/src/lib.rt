//! Laws of crashes: what a page is after so many records, when a volume is sound, and why
//! whatever a crash leaves can be opened.
#![tactic(auto)]

/// Versions of a page: what it is after so many records of a log.
pub mod page_versions;
/// The pages of a copy in memory: each is the newest version of its page.
pub mod newest_pages;
/// The records that an engine appends: they follow one another, and tell the state that they leave.
pub mod log_chain;
/// When a volume is sound, and why what a crash leaves of an engine's volume is.
pub mod sound_volume;
/// What a Switch record makes of a log, and of what a crash leaves of a volume.
pub mod switch_record;
/// How a table begins anew on the copy to which its log turns.
pub mod new_copy;
