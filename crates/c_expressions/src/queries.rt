//! What the rules ask of a type, by its number.

ghost use Rattle.std.specs.Prelude.{◌≡◌, ◌<◌, ◌&&◌, None, Some, MatchOption};
ghost use Rattle.c_tree.specs.Types.{bare, is_const, is_integer, is_pointer, is_scalar, is_void, is_bool, is_array};
ghost use Rattle.c_tree.specs.Types.{is_function, is_tagged, is_capability, target_of};
ghost use Rattle.c_tree.specs.Constants.{is_pointer_to_void};
ghost use Rattle.c_tree.specs.Expressions.{moves, points_to_function, is_void_pointer};
ghost use Rattle.c_node_facts.specs.Facts.{evaluation_of, IsConversion};
ghost use Rattle.c_expressions.specs.Nodes.{IsWhole, IsType, type_in, type_count};

use crate::nodes::Nodes;
use c_node_facts::{Class, Conversion, Evaluation};

impl Nodes<'_> {
    /// Whether it is an integer type, unqualified (C11 6.2.5p17).
    pub fn is_integer(&self, t: u32) -> bool
        requires whole { IsWhole self.now }
        requires there { t < type_count self.now }
        ensures { is_integer (type_in self.now t) ≡ result }
    {
        self.class(t).is_integer()
    }

    /// Whether it is a pointer type, unqualified.
    pub fn is_pointer(&self, t: u32) -> bool
        requires whole { IsWhole self.now }
        requires there { t < type_count self.now }
        ensures { is_pointer (type_in self.now t) ≡ result }
    {
        self.class(t).is_pointer()
    }

    /// Whether it is a scalar type, unqualified: an integer or a pointer (C11 6.2.5p21).
    pub fn is_scalar(&self, t: u32) -> bool
        requires whole { IsWhole self.now }
        requires there { t < type_count self.now }
        ensures { is_scalar (type_in self.now t) ≡ result }
    {
        self.class(t).is_scalar()
    }

    /// Whether it is `void`, unqualified.
    pub fn is_void(&self, t: u32) -> bool
        requires whole { IsWhole self.now }
        requires there { t < type_count self.now }
        ensures { is_void (type_in self.now t) ≡ result }
    {
        self.class(t).is_void()
    }

    /// Whether it is `_Bool`, unqualified.
    pub fn is_bool(&self, t: u32) -> bool
        requires whole { IsWhole self.now }
        requires there { t < type_count self.now }
        ensures { is_bool (type_in self.now t) ≡ result }
    {
        self.class(t).is_bool()
    }

    /// Whether it is an array type.
    pub fn is_array(&self, t: u32) -> bool
        requires whole { IsWhole self.now }
        requires there { t < type_count self.now }
        ensures { is_array (type_in self.now t) ≡ result }
    {
        self.class(t).is_array()
    }

    /// Whether it is a function type.
    pub fn is_function(&self, t: u32) -> bool
        requires whole { IsWhole self.now }
        requires there { t < type_count self.now }
        ensures { is_function (type_in self.now t) ≡ result }
    {
        self.class(t).is_function()
    }

    /// Whether it is a structure or union type, complete or not, unqualified.
    pub fn is_tagged(&self, t: u32) -> bool
        requires whole { IsWhole self.now }
        requires there { t < type_count self.now }
        ensures { is_tagged (type_in self.now t) ≡ result }
    {
        self.class(t).is_tagged()
    }

    /// Whether its values are capabilities: a pointer, `intptr_t` or `uintptr_t`, unqualified.
    pub fn is_capability(&self, t: u32) -> bool
        requires whole { IsWhole self.now }
        requires there { t < type_count self.now }
        ensures { is_capability (type_in self.now t) ≡ result }
    {
        self.class(t).is_capability()
    }

    /// Whether both are integer types, unqualified.
    pub fn are_integers(&self, s: u32, t: u32) -> bool
        requires whole { IsWhole self.now }
        requires first { s < type_count self.now }
        requires second { t < type_count self.now }
        ensures { (is_integer (type_in self.now s) && is_integer (type_in self.now t)) ≡ result }
    {
        self.is_integer(s) && self.is_integer(t)
    }

    /// Whether both are scalar types, unqualified.
    pub fn are_scalars(&self, s: u32, t: u32) -> bool
        requires whole { IsWhole self.now }
        requires first { s < type_count self.now }
        requires second { t < type_count self.now }
        ensures { (is_scalar (type_in self.now s) && is_scalar (type_in self.now t)) ≡ result }
    {
        self.is_scalar(s) && self.is_scalar(t)
    }

    /// The type without a qualifier of its own.
    pub fn bare(&self, t: u32) -> u32
        requires whole { IsWhole self.now }
        requires there { t < type_count self.now }
        ensures { IsType self.now result (bare (type_in self.now t)) }
    {
        match self.class(t) {
            Class::Const(of) => of,
            Class::Void
            | Class::Int(_, _)
            | Class::Cap(_)
            | Class::Pointer(_)
            | Class::Array(_, _)
            | Class::Tagged(_)
            | Class::Function(_) => t,
        }
    }

    /// Whether the type is qualified, by itself or in its elements (C11 6.7.3p9).
    pub fn is_const(&self, t: u32) -> bool
        requires whole { IsWhole self.now }
        requires there { t < type_count self.now }
        ensures { is_const (type_in self.now t) ≡ result }
    {
        let mut at = t;
        loop {
            match self.class(at) {
                Class::Array(of, _) => at = of,
                Class::Const(_) => return true,
                Class::Void
                | Class::Int(_, _)
                | Class::Cap(_)
                | Class::Pointer(_)
                | Class::Tagged(_)
                | Class::Function(_) => return false,
            }
        }
    }

    /// What a pointer points to.
    pub fn target(&self, t: u32) -> Option<u32>
        requires whole { IsWhole self.now }
        requires there { t < type_count self.now }
        ensures { MatchOption result (target_of (type_in self.now t) ≡ None)
            (λ u. (u < type_count self.now) × (target_of (type_in self.now t) ≡ Some (type_in self.now u))) }
    {
        match self.class(t) {
            Class::Pointer(of) => Some(of),
            Class::Void
            | Class::Int(_, _)
            | Class::Cap(_)
            | Class::Array(_, _)
            | Class::Tagged(_)
            | Class::Function(_)
            | Class::Const(_) => None,
        }
    }

    /// Whether it is a pointer to a function.
    pub fn points_to_function(&self, t: u32) -> bool
        requires whole { IsWhole self.now }
        requires there { t < type_count self.now }
        ensures { points_to_function (type_in self.now t) ≡ result }
    {
        match self.target(t) {
            Some(of) => self.is_function(of),
            None => false,
        }
    }

    /// Whether it is a pointer to `void`, which may be qualified.
    pub fn is_void_pointer(&self, t: u32) -> bool
        requires whole { IsWhole self.now }
        requires there { t < type_count self.now }
        ensures { is_void_pointer (type_in self.now t) ≡ result }
    {
        match self.target(t) {
            Some(of) => self.is_void(self.bare(of)),
            None => false,
        }
    }

    /// Whether it is a pointer to `void` without a qualifier.
    pub fn is_pointer_to_void(&self, t: u32) -> bool
        requires whole { IsWhole self.now }
        requires there { t < type_count self.now }
        ensures { is_pointer_to_void (type_in self.now t) ≡ result }
    {
        match self.target(t) {
            Some(of) => self.is_void(of),
            None => false,
        }
    }

    /// Whether a pointer is moved by a value of the other type (C11 6.5.6p2).
    pub fn moves(&self, s: u32, t: u32) -> bool
        requires whole { IsWhole self.now }
        requires first { s < type_count self.now }
        requires second { t < type_count self.now }
        ensures { moves (type_in self.now s) (type_in self.now t) ≡ result }
    {
        match self.target(s) {
            Some(of) => !self.is_function(of) && self.is_integer(t),
            None => false,
        }
    }

    /// What the type is to constant expressions.
    pub fn evaluation(&self, t: u32) -> Evaluation
        requires whole { IsWhole self.now }
        requires there { t < type_count self.now }
        ensures { evaluation_of (type_in self.now t) ≡ result }
    {
        let class = self.class(self.bare(t));
        Evaluation {
            kind: class.kind(),
            integer: class.is_integer(),
        }
    }

    /// What is known of the types of a conversion.
    pub fn conversion(&self, from: u32, to: u32) -> Conversion
        requires whole { IsWhole self.now }
        requires from { from < type_count self.now }
        requires to { to < type_count self.now }
        ensures { IsConversion result (type_in self.now from) (type_in self.now to) }
    {
        let source = self.class(self.bare(from));
        Conversion {
            to: self.evaluation(to),
            from: self.evaluation(from),
            to_capability: self.class(to).is_cap(),
            to_void_pointer: self.is_pointer_to_void(to),
            from_plain: source.is_plain(),
            from_capability: source.is_cap(),
        }
    }
}
