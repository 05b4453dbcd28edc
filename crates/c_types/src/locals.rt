//! Locals are declared.
ghost use Rattle.std.specs.Prelude.{◌≡◌, ℕ, ◌<◌, ◌++◌, ◌∷◌, [], map, length, slice_get, Some, IfOk, OnOk, OnErr};
ghost use Rattle.c_tree.specs.Declarations.{new_local};
ghost use Rattle.c_tree.specs.Scopes.{State, LocalState, Local, bind_name};
ghost use Rattle.c_tree.specs.Types.{Ty};
ghost use Rattle.c_tree.specs.Views.{types_of};
ghost use Rattle.c_types.specs.Calls.{Given, Keeps, Answers, IsDeclared};
ghost use Rattle.c_types.specs.Declares.{name_of, formed_of, declares_local};
ghost use Rattle.c_types.specs.Naming.{IsNumber};
ghost use Rattle.c_types.specs.Stands.{Stands, named, text_at, var_kept, local_seen};
ghost use Rattle.c_types.specs.Retyped.{retyped};

use crate::entries::{Decl, Entity, Entry};
use crate::judging::admit;
use crate::scopes::Scopes;
use c_interner::next_number;
use c_tree::{Typed, VarDef};
use ck_base::{NoMemory, Refusal, Span};
use std::mem;

fn local(k: u32, of: u32) -> Entity
    ensures { result ≡ Entity.Local k of }
{
    Entity::Local(k, of)
}

impl<'a> Scopes<'a> {
    // A new local of the function at work, which its name denotes from here on.
    pub(crate) fn new_local(&mut self, d: Decl) -> Result<u32, NoMemory>
        ensures ok { IfOk result (λ j. (p : Typed) (s : State) (of : Ty) → Stands self.old p s →
            named (types_of p.types) d.of ≡ Some of →
            Given self.new p (new_local (name_of self.old.file.now d) of s) (IsNumber j)) }
        ensures err { OnErr result ((p : Typed) → Keeps self.old self.new p) }
        ensures file { self.new.file.now ≡ self.old.file.now }
    {
        let k = next_number(self.locals.as_slice())?;
        self.locals.reserve(1)?;
        self.bind(self.text(d.name), local(k, d.of))?;
        self.locals.push(VarDef {
            name: d.name,
            pos: d.pos,
            of: d.of,
            simple: false,
        })?;
        Ok(k)
    }

    // An object of automatic storage duration is declared (C11 6.2.4p5).
    pub(crate) fn declare_local(&mut self, p: &Typed, d: Decl) -> Result<Entry, Refusal>
        ensures is { d.of < length p.now.types →
            Answers self.old p.now self.new p.now (declares_local (name_of self.old.file.now d)
            (formed_of p.now d) d.defines) (IsDeclared p.now) result }
        ensures file { self.new.file.now ≡ self.old.file.now }
    {
        let fits = self.is_new(self.text(d.name));
        let ready = self.is_ready(p, d.of, d.defines);
        match admit(fits, d.faults, !ready, false, d.pos) {
            Err(refusal) => Err(refusal),
            Ok(()) => {
                let k = self.new_local(d)?;
                Ok(Entry::Var(k))
            }
        }
    }

    /// One more parameter of the function at work. The scope of its prototype has its name.
    pub fn add_parameter(&mut self, parameter: VarDef) -> Result<(), NoMemory>
        ensures ok { OnOk result ((p : Typed) (s : State) (y : LocalState) → Stands self.old p s →
            var_kept self.old.file.now (types_of p.types) parameter ≡ local_seen y →
            Stands self.new p (record s { locals = s.locals ++ y ∷ [] })) }
        ensures err { OnErr result ((p : Typed) → Keeps self.old self.new p) }
        ensures file { self.new.file.now ≡ self.old.file.now }
    {
        self.locals.push(parameter)?;
        Ok(())
    }

    /// The parameters and the other locals of the function at work, which has none from here on.
    pub fn take_locals(&mut self) -> Vec<VarDef>
        ensures seen { (p : Typed) (s : State) → Stands self.old p s →
            map (var_kept self.old.file.now (types_of p.types)) result.items ≡ map local_seen s.locals }
        ensures none { (p : Typed) (s : State) → Stands self.old p s → Stands self.new p (record s { locals = [] }) }
        ensures file { self.new.file.now ≡ self.old.file.now }
    {
        mem::replace(&mut self.locals, Vec::new(self.alloc))
    }

    /// A name of the innermost scope denotes a parameter from here on, by its number in the function (C11 6.2.1p4).
    pub fn bind_local(&mut self, k: u32, of: u32, name: Span) -> Result<(), NoMemory>
        ensures ok { OnOk result ((p : Typed) (s : State) (u : Ty) → Stands self.old p s →
            named (types_of p.types) of ≡ Some u →
            Stands self.new p (bind_name (text_at self.old.file.now name) (Local k u) s)) }
        ensures err { OnErr result ((p : Typed) → Keeps self.old self.new p) }
        ensures file { self.new.file.now ≡ self.old.file.now }
    {
        self.bind(self.text(name), local(k, of))
    }

    fn local_at(&self, k: u32) -> Option<VarDef>
        ensures { result ≡ slice_get self.now.locals.items k }
    {
        self.locals.get(k as usize).copied()
    }

    // The type of a local becomes another.
    fn retype_local(&mut self, k: u32, of: u32)
        ensures is { (p : Typed) (s : State) (u : Ty) → Stands self.old p s → named (types_of p.types) of ≡ Some u →
            Stands self.new p (record s { locals = retyped u s.locals k }) }
        ensures file { self.new.file.now ≡ self.old.file.now }
    {
        match self.local_at(k) {
            None => {}
            Some(v) => {
                self.locals[k as usize] = VarDef {
                    name: v.name,
                    pos: v.pos,
                    of,
                    simple: v.simple,
                };
            }
        }
    }

    /// A local of an array whose length was not known gets the type with its length, by its initialiser (C11 6.7.9p22).
    pub fn complete_local(&mut self, k: u32, of: u32, name: Span) -> Result<(), NoMemory>
        ensures ok { OnOk result ((p : Typed) (s : State) (u : Ty) → Stands self.old p s →
            named (types_of p.types) of ≡ Some u →
            Stands self.new p (bind_name (text_at self.old.file.now name) (Local k u)
            (record s { locals = retyped u s.locals k }))) }
        ensures err { OnErr result ((p : Typed) → Keeps self.old self.new p) }
        ensures file { self.new.file.now ≡ self.old.file.now }
    {
        self.bind(self.text(name), local(k, of))?;
        self.retype_local(k, of);
        Ok(())
    }
}
