//! The program under way: its types and expressions by their numbers.

ghost use Rattle.std.specs.Prelude.{◌≡◌, ℕ, ◌<◌, [], IfOk};
ghost use Rattle.c_tree.specs.Types.{Ty, Tys};
ghost use Rattle.c_tree.specs.Terms.{type_of, pos_of};
ghost use Rattle.c_tree.specs.Views.{type_from, expr_from, types_of};
ghost use Rattle.c_tree.specs.Scopes.{State};
ghost use Rattle.c_interner.specs.Numbers.{IsPlain, AddsTypes};
ghost use Rattle.c_types.specs.Stands.{Stands};
ghost use Rattle.c_node_facts.specs.Classes.{class_type};
ghost use Rattle.c_node_facts.specs.Facts.{fact_of};
ghost use Rattle.c_expressions.specs.Classes.{PartIsThere};
ghost use Rattle.c_expressions.specs.Nodes.{IsWhole, IsTyped, IsClass, IsType, IsTerm, HasType, HasTerm, Sees, type_in};
ghost use Rattle.c_expressions.specs.Nodes.{term_in, type_count, term_count};

use c_interner::{append, next_number};
use c_node_facts::{Class, Fact, class_of};
use c_tree::{CType, Expr, Typed};
use c_types::Scopes;
use ck_base::{NoMemory, Pos};
use std::alloc::Global;

/// The types and the expressions of a program so far.
#[derive(Drop)]
pub struct Nodes<'a> {
    pub alloc: Global,
    pub p: Typed,
    /// What is declared so far, with the numbers of the types.
    pub scopes: Scopes<'a>,
    /// What is known of each expression.
    pub facts: Vec<Fact>,
    /// The number of `void`.
    pub void: u32,
}

/// A typed expression, by its number, and the first byte of what was written.
#[derive(Clone, Copy)]
pub struct Operand {
    pub node: u32,
    pub first: Pos,
}

impl<'a> Nodes<'a> {
    /// A program without expressions.
    pub fn new(alloc: Global, p: Typed, scopes: Scopes<'a>) -> Result<Self, NoMemory>
        requires { p.exprs ≡ [] }
        ensures whole { IfOk result IsWhole }
        ensures adds { IfOk result (λ n. AddsTypes p n.p) }
        ensures keeps { IfOk result (λ n. (s : State) → Stands scopes.entry p s → Stands n.scopes n.p s) }
        ensures file { IfOk result (λ n. n.scopes.file.now ≡ scopes.entry.file.now) }
    {
        let mut program = p;
        let mut declared = scopes;
        let void = declared.number_of(&mut program, CType::Void)?;
        Ok(Nodes {
            alloc,
            p: program,
            scopes: declared,
            facts: Vec::new(alloc),
            void,
        })
    }

    /// The number of a type that is no struct or union.
    pub fn type_number(&mut self, c: CType) -> Result<u32, NoMemory>
        requires whole { IsWhole self.old }
        requires plain { IsPlain c }
        ensures { IfOk result (λ k. HasType self.old self.new k (type_from c (type_in self.old))) }
    {
        self.scopes.number_of(&mut self.p, c)
    }

    /// A new expression, of which this is known.
    pub fn add(&mut self, e: Expr, fact: Fact) -> Result<u32, NoMemory>
        requires whole { IsWhole self.old }
        requires typed { IsTyped (type_count self.old) (term_count self.old) e }
        requires known { fact ≡ fact_of (expr_from (types_of self.old.p.types) e (term_in self.old)) }
        ensures { IfOk result (λ k. HasTerm self.old self.new k
            (expr_from (types_of self.old.p.types) e (term_in self.old))) }
    {
        let number = next_number(self.p.exprs.as_slice());
        append(self.alloc, &mut self.p.exprs, e)?;
        self.facts.push(fact)?;
        number
    }

    /// One level of a type.
    pub fn class(&self, t: u32) -> Class
        requires whole { IsWhole self.now }
        requires there { t < type_count self.now }
        ensures { IsClass self.now t result }
    {
        self.level(class_of(&self.p.types.as_slice()[t as usize]), t)
    }

    // A level as the types before a number make it.
    fn level(&self, class: Class, t: u32) -> Class
        requires whole { IsWhole self.now }
        requires there { t < type_count self.now }
        ensures is { (seen : ℕ → Ty) (ps : Tys) → Sees self.now t seen →
            class_type class seen ps ≡ class_type result (type_in self.now) ps }
        ensures there { PartIsThere result (type_count self.now) }
    {
        match class {
            Class::Void => Class::Void,
            Class::Int(kind, other) => Class::Int(kind, other),
            Class::Cap(signed) => Class::Cap(signed),
            Class::Pointer(of) => Class::Pointer(self.part(of, t)),
            Class::Array(of, count) => Class::Array(self.part(of, t), count),
            Class::Tagged(tag) => Class::Tagged(tag),
            Class::Function(gives) => Class::Function(self.part(gives, t)),
            Class::Const(of) => Class::Const(self.part(of, t)),
        }
    }

    /// The type that another one is made of, by the number that it names: one that does not stand before it stands for
    /// `void`.
    pub fn part(&self, inner: u32, t: u32) -> u32
        requires whole { IsWhole self.now }
        requires there { t < type_count self.now }
        ensures is { (seen : ℕ → Ty) → Sees self.now t seen → seen inner ≡ type_in self.now result }
        ensures there { result < type_count self.now }
    {
        if inner < t { inner } else { self.void }
    }

    /// The type of an expression.
    pub fn of(&self, node: u32) -> u32
        requires whole { IsWhole self.now }
        requires there { node < term_count self.now }
        ensures { IsType self.now result (type_of (term_in self.now node)) }
    {
        self.p.exprs.as_slice()[node as usize].of
    }

    /// The place of an expression.
    pub fn pos(&self, node: u32) -> Pos
        requires whole { IsWhole self.now }
        requires there { node < term_count self.now }
        ensures { result ≡ pos_of (term_in self.now node) }
    {
        self.p.exprs.as_slice()[node as usize].pos
    }

    /// What is known of an expression.
    pub fn fact(&self, node: u32) -> Fact
        requires whole { IsWhole self.now }
        requires there { node < term_count self.now }
        ensures { result ≡ fact_of (term_in self.now node) }
    {
        self.facts[node as usize]
    }
}
