//! The bytes that objects and string literals own.

ghost use Rattle.std.specs.Prelude.{◌≡◌, ◌≤◌, Some, None, slice_get, if◌then◌else◌};
ghost use Rattle.cap_concentrate.specs.Rounding.{owned};
ghost use Rattle.c_tree.specs.Layout.{size_limit, fitting};
ghost use Rattle.c_tree.specs.Scopes.{State, is_complete, size};
ghost use Rattle.c_tree.specs.Statics.{static_length, text_length, aim_length};
ghost use Rattle.c_tree.specs.Views.{aim_of};
ghost use Rattle.c_expressions.specs.Nodes.{type_in};
ghost use Rattle.c_elaborator.specs.Work.{Shows};

use crate::work::Work;
use c_tree::Target;
use cap_layout::{LIMIT, LayoutFault, owned};

// So many bytes, if within the limit.
fn fitting(n: u64) -> u64
    ensures is { result ≡ fitting n }
    ensures small { result ≤ size_limit }
{
    if n <= LIMIT { n } else { 0 }
}

impl Work<'_> {
    // What an object of a type owns, where the type is complete.
    fn type_length(&self, of: u32) -> Option<u64>
        ensures { (s : State) → Shows self.now s → (if is_complete s (type_in self.now.nodes of)
            then Some (owned (size s (type_in self.now.nodes of))) else None) ≡ result }
    {
        match self.nodes.scopes.layout(&self.nodes.p, of) {
            Err(LayoutFault::Incomplete) => None,
            Err(LayoutFault::TooLarge) => Some(owned(0).length),
            Ok(layout) => Some(owned(layout.size).length),
        }
    }

    /// What an object of static storage duration owns, where its type is complete.
    pub fn object_length(&self, k: u32) -> Option<u64>
        ensures { (s : State) → Shows self.now s → static_length s (slice_get s.statics k) ≡ result }
    {
        match self.nodes.scopes.type_of_object(&self.nodes.p, k) {
            None => None,
            Some(of) => self.type_length(of),
        }
    }

    // What a string literal owns.
    fn literal_length(&self, k: u32) -> Option<u64>
        ensures { (s : State) → Shows self.now s → text_length (slice_get s.texts k) ≡ result }
    {
        match self.nodes.p.literals.as_slice().get(k as usize) {
            None => None,
            Some(text) => Some(owned(fitting(text.bytes.as_slice().len() as u64)).length),
        }
    }

    /// The bytes that an object or a literal owns, where its type is complete.
    pub fn aim_length(&self, target: Target) -> Option<u64>
        ensures { (s : State) → Shows self.now s → aim_length s (aim_of target) ≡ result }
    {
        match target {
            Target::Fun(_) => None,
            Target::Literal(k) => self.literal_length(k),
            Target::Global(k) => self.object_length(k),
        }
    }
}
