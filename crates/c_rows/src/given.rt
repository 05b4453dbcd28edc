//! What tests of several modules begin with, and how they end.

use ck_base::Sequence;
use std::alloc::Global;
use std::process::Abort;

pub(crate) fn none<T>(alloc: Global) -> Sequence<T> {
    Sequence::from_vec(Vec::new(alloc))
}

/// Ends the test where a row is wrong.
pub(crate) fn must_be_none(rt: &impl Abort, wrong: Option<&str>) {
    if let Some(row) = wrong {
        assert!(rt; false, "{row}");
    }
}
