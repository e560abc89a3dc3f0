//! Sinks in memory, and what each test uses in place of an assertion.

use charlotte_calls::NoMemory;
use lynx_outside::ListSink;
use std::alloc::Global;
use std::test::Fail;

/// Fails the test, and tells what was looked at, unless this holds.
pub(crate) fn holds(is_so: bool, what: &str) -> Result<(), Fail> {
    if is_so { Ok(()) } else { Err(what.into()) }
}

/// A sink with room for every text of these tests, no put on which fails.
pub(crate) fn sink(alloc: Global) -> Result<ListSink, NoMemory> {
    ListSink::with(alloc, 100, Vec::new(alloc))
}

/// A sink holds this text.
pub(crate) fn held(sink: &ListSink, text: &str) -> Result<(), Fail> {
    holds(sink.held() == text.as_bytes(), text)
}
