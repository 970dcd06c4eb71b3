//! When a volume is sound, and why what a crash leaves of an engine's volume is.

/// The laws, each the contract of a function without a body.
pub mod laws;
