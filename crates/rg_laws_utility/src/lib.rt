//! Laws of the utility: what a trace tells of locks, stages and steps, and how much is sent.
#![tactic(auto)]

/// What a trace tells of locks and of quiet keys, and what a right switch asks of them.
pub mod trace_locks;
/// That whoever has locked a key holds a claim.
pub mod lock_claims;
/// What a desk keeps of the utility that runs, by its entries alone.
pub mod trace_stage;
/// Which keys are not quiet after a statement.
pub mod quiet_keys;
/// When a utility that nothing hinders has ended.
pub mod course;
/// The changes of rows that the records of a log make.
pub mod record_changes;
/// How much a new copy may have to take: what was sent to a utility, and what will still be sent.
pub mod copy_weight;
/// What the entries since an opening have allowed the pages of a copy to claim.
pub mod byte_account;
