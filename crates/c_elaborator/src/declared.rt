//! What is asked of types, objects and functions by their numbers.

ghost use Rattle.std.specs.Prelude.{◌≡◌, ◌<◌, slice_get, IfSome};
ghost use Rattle.c_tree.specs.Declarations.{static_of};
ghost use Rattle.c_tree.specs.Expressions.{routine_type};
ghost use Rattle.c_tree.specs.Scopes.{State};
ghost use Rattle.c_expressions.specs.Nodes.{IsWhole, type_in, type_count};
ghost use Rattle.c_elaborator.specs.Rules.{IsObjectType, IsFunctionType};
ghost use Rattle.c_elaborator.specs.Work.{Shows};

use crate::work::Work;

impl Work<'_> {
    /// A number that names a type: this one, or else that of `void`, which any other number stands for.
    pub fn there(&self, of: u32) -> u32
        requires { IsWhole self.now.nodes }
        ensures there { result < type_count self.now.nodes }
        ensures is { type_in self.now.nodes result ≡ type_in self.now.nodes of }
    {
        if (of as usize) < self.nodes.p.types.as_slice().len() {
            of
        } else {
            self.nodes.void
        }
    }

    /// The type of an object of static storage duration, if there is one with this number.
    pub fn object_type(&self, k: u32) -> Option<u32>
        requires { IsWhole self.now.nodes }
        ensures there { IfSome result (λ of. of < type_count self.now.nodes) }
        ensures is { IsObjectType self.now k result }
    {
        match self.nodes.scopes.type_of_object(&self.nodes.p, k) {
            None => None,
            Some(of) => Some(self.there(of)),
        }
    }

    /// The type of a function, if there is one with this number.
    pub fn function_type(&self, k: u32) -> Option<u32>
        requires { IsWhole self.now.nodes }
        ensures there { IfSome result (λ of. of < type_count self.now.nodes) }
        ensures is { IsFunctionType self.now k result }
    {
        match self.nodes.scopes.type_of_function(&self.nodes.p, k) {
            None => None,
            Some(of) => Some(self.there(of)),
        }
    }

    /// The type of an object of static storage duration, `void` where there is none.
    pub fn static_type(&self, k: u32) -> u32
        requires { IsWhole self.now.nodes }
        ensures there { result < type_count self.now.nodes }
        ensures is { (s : State) → Shows self.now s →
            type_in self.now.nodes result ≡ static_of (slice_get s.statics k) }
    {
        match self.object_type(k) {
            None => self.nodes.void,
            Some(of) => of,
        }
    }

    /// The type of a function, `void` where there is none.
    pub fn routine_type(&self, k: u32) -> u32
        requires { IsWhole self.now.nodes }
        ensures there { result < type_count self.now.nodes }
        ensures is { (s : State) → Shows self.now s →
            type_in self.now.nodes result ≡ routine_type (slice_get s.routines k) }
    {
        match self.function_type(k) {
            None => self.nodes.void,
            Some(of) => of,
        }
    }
}
