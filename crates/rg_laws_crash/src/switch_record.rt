//! What a Switch record makes of a log, and of what a crash leaves of a volume.

/// The laws, each the contract of a function without a body.
pub mod laws;
