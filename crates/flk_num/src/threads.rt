//! What may cross threads.

/// Takes a value of any type that can be handed to another thread, and be seen by several at once; and does nothing.
/// A call shows that a type is one.
pub fn crosses_threads<T: Send + Sync>(_value: &T) {}
