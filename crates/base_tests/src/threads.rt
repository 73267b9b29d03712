//! That a value may go to threads, or be shared with one.

pub fn needs_send<T: Send>(_value: &T) {}

pub fn needs_sync<T: Sync>(_value: &T) {}
