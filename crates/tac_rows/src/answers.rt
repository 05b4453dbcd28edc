//! How a test says that a fact holds, or each row of a table. A test that calls one of the two alone is the cheaper to
//! prove.

use std::process::Abort;

/// Ends the test unless this fact holds.
pub(crate) fn must_hold(rt: &impl Abort, fact: &'static str, holds: bool) {
    assert!(rt; holds, "{fact}");
}

/// Ends the test where a row is wrong: it has this place in its table.
pub(crate) fn must_all_hold(rt: &impl Abort, rows: &'static str, wrong: Option<usize>) {
    if let Some(row) = wrong {
        assert!(rt; false, "{rows}: {row}");
    }
}
