//! What was declared is completed: the lengths of arrays, initial values and bodies.
ghost use Rattle.std.specs.Prelude.{◌≡◌, ℕ, List, true, Some};
ghost use Rattle.c_tree.specs.Scopes.{State, StaticState, RoutineState, Aiming, Body, changed_at, change_static};
ghost use Rattle.c_tree.specs.Scopes.{change_routine};
ghost use Rattle.c_tree.specs.Types.{Ty};
ghost use Rattle.c_tree.specs.Views.{types_of};
ghost use Rattle.c_tree.specs.declared.typed.FunDef.{FunDef};
ghost use Rattle.c_tree.specs.declared.typed.GlobalDef.{GlobalDef};
ghost use Rattle.c_types.specs.Calls.{Extends};
ghost use Rattle.c_types.specs.Stands.{Stands, named};
ghost use Rattle.c_types.specs.declared.scopes.ObjectInfo.{ObjectInfo};

use crate::lists::{put, taken};
use crate::scopes::Scopes;
use crate::statics::set_type;
use c_tree::{FunDef, GlobalDef, Link, Typed, VarDef};
use ck_base::Sequence;
use std::alloc::Global;

// An object gets its initial bytes and pointers. It takes no memory.
fn set_contents(
    alloc: Global,
    globals: &mut Sequence<GlobalDef>,
    k: u32,
    bytes: Vec<u8>,
    links: Vec<Link>,
)
    ensures { globals.new ≡ changed_at (λ (g : GlobalDef). record g { bytes = bytes.items; links = links.items })
        globals.old k }
{
    let mut items = taken(alloc, globals);
    if (k as usize) < items.len() {
        let global = &mut items[k as usize];
        global.bytes = Sequence::from_vec(bytes);
        global.links = Sequence::from_vec(links);
    }
    put(globals, items);
}

// A function gets its parameters, its variables and its body. It takes no memory.
fn set_body(
    alloc: Global,
    funs: &mut Sequence<FunDef>,
    k: u32,
    params: Vec<u32>,
    vars: Vec<VarDef>,
    body: u32,
)
    ensures { funs.new ≡ changed_at (λ (f : FunDef). record f { params = params.items; vars = vars.items; body = body })
        funs.old k }
{
    let mut items = taken(alloc, funs);
    if (k as usize) < items.len() {
        let function = &mut items[k as usize];
        function.params = Sequence::from_vec(params);
        function.vars = Sequence::from_vec(vars);
        function.body = body;
    }
    put(funs, items);
}

impl<'a> Scopes<'a> {
    // An object has an initialiser from here on.
    fn note_given(&mut self, k: u32)
        ensures others { self.new ≡ record self.old { objects = self.new.objects } }
        ensures objects { self.new.objects.items
            ≡ changed_at (λ (o : ObjectInfo). record o { given = true }) self.old.objects.items k }
        ensures file { self.new.file.now ≡ self.old.file.now }
    {
        if (k as usize) < self.objects.len() {
            self.objects[k as usize].given = true;
        }
    }

    /// An object of an array whose length was not known gets the type with its length, by its initialiser (C11
    /// 6.7.9p22).
    pub fn complete_global(&self, p: &mut Typed, k: u32, of: u32)
        ensures stands { (s : State) (u : Ty) → Stands self.now p.old s → named (types_of p.old.types) of ≡ Some u →
            Stands self.now p.new (change_static k (λ (g : StaticState). record g { of = u }) s) }
        ensures extends { Extends p.old p.new }
    {
        set_type(self.alloc, &mut p.globals, k, of);
    }

    /// An object gets its initial bytes and pointers (C11 6.7.9): a later declaration with an initialiser does not
    /// agree with it.
    pub fn fill_global(&mut self, p: &mut Typed, k: u32, bytes: Vec<u8>, links: Vec<Link>)
        ensures stands { (s : State) (i : List ℕ × List Aiming) → Stands self.old p.old s →
            Stands self.new p.new (change_static k (λ (g : StaticState). record g { initial = Some i }) s) }
        ensures program { p.new ≡ record p.old {
          globals = changed_at
              (λ (g : GlobalDef). record g { bytes = bytes.items; links = links.items }) p.old.globals k;
        } }
        ensures file { self.new.file.now ≡ self.old.file.now }
    {
        set_contents(self.alloc, &mut p.globals, k, bytes, links);
        self.note_given(k);
    }

    /// A function gets its parameters, its variables and its body (C11 6.9.1).
    pub fn fill_function(
        &self,
        p: &mut Typed,
        k: u32,
        params: Vec<u32>,
        vars: Vec<VarDef>,
        body: u32,
    )
        ensures stands { (s : State) (b : Body) → Stands self.now p.old s →
            Stands self.now p.new (change_routine k (λ (r : RoutineState). record r { body = Some b }) s) }
        ensures program { p.new ≡ record p.old {
          funs = changed_at
              (λ (f : FunDef). record f { params = params.items; vars = vars.items; body = body }) p.old.funs k;
        } }
    {
        set_body(self.alloc, &mut p.funs, k, params, vars, body);
    }
}
