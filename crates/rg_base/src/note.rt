// Reads for a proof alone.

/// Does nothing. A proof learns what a call ensures only where the call is made. So a call stands
/// here, as `note(&log.records())`, whose answer nothing else needs.
pub fn note<T>(_value: &T) {}
