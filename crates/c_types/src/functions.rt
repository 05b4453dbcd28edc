//! Functions are declared and defined (C11 6.7.6.3, 6.9.1).
ghost use Rattle.std.specs.Prelude.{◌≡◌, ℕ, List, [], Bool, true, false, not, ◌&&◌, ◌||◌, ◌<◌, length, Some, None};
ghost use Rattle.std.specs.Prelude.{option_map, slice_get, Option, IfOk, OnErr};
ghost use Rattle.c_tree.specs.Declarations.{new_routine, known_routine, linked_routine, agrees_routine, agrees_library};
ghost use Rattle.c_tree.specs.Scopes.{State, changed_at, change_routine, find_in, innermost};
ghost use Rattle.c_tree.specs.Scopes.{Entity as Meant};
ghost use Rattle.c_tree.specs.Scopes.{RoutineState};
ghost use Rattle.c_tree.specs.Types.{Ty, composite};
ghost use Rattle.c_tree.specs.Programs.{is_typedef};
ghost use Rattle.c_tree.specs.Views.{types_of};
ghost use Rattle.c_tree.specs.declared.typed.FunDef.{FunDef};
ghost use Rattle.c_interner.specs.Numbers.{AddsTypes, type_named};
ghost use Rattle.c_types.specs.Calls.{Given, Keeps, Answers, Extends, IsDeclared};
ghost use Rattle.c_types.specs.Declares.{storage_of, name_of, formed_of, declares_function, declares_definition};
ghost use Rattle.c_types.specs.Fitting.{joined, seen_routine, seen_library, function_seen, definition_seen};
ghost use Rattle.c_types.specs.Fitting.{function_fits};
ghost use Rattle.c_types.specs.Naming.{IsNumber, begun_at, function_entry};
ghost use Rattle.c_types.specs.Stands.{Stands, named, fun_kept, declared_at, entity_kept, entity_seen, text_at};

use crate::entries::{Decl, Entity, Entry, Storage};
use crate::judging::{admit, either, is_function};
use crate::lists::{put, taken};
use crate::scopes::Scopes;
use crate::statics::agree_with;
use c_interner::{Lengths, append, next_number};
use c_tree::{FunDef, Typed};
use ck_base::{NoMemory, Pos, Refusal, Sequence, Span};
use std::alloc::Global;

fn routine(k: u32) -> Entity
    ensures { result ≡ Entity.Routine k }
{
    Entity::Routine(k)
}

// The number of a function.
fn routine_number(entity: Entity) -> Option<u32>
    ensures { (ts : List Ty) → result ≡ seen_routine (entity_kept ts entity) }
{
    match entity {
        Entity::Routine(k) => Some(k),
        Entity::Local(_, _)
        | Entity::Static(_)
        | Entity::Alias(_)
        | Entity::Enumerator(_)
        | Entity::Library(_, _) => None,
    }
}

// The number of the type of a library function, if it has one.
fn library_type(entity: Entity) -> Option<u32>
    ensures { (ts : List Ty) → joined (option_map (named ts) result) ≡ seen_library (entity_kept ts entity) }
{
    match entity {
        Entity::Library(_, of) => of,
        Entity::Local(_, _)
        | Entity::Static(_)
        | Entity::Alias(_)
        | Entity::Routine(_)
        | Entity::Enumerator(_) => None,
    }
}

fn is_typedef(storage: Storage) -> bool
    ensures { result ≡ is_typedef (storage_of storage) }
{
    match storage {
        Storage::Typedef => true,
        Storage::Plain | Storage::Static | Storage::Extern => false,
    }
}

// What the name of a function denotes once it is declared: a library function, or the function with a number.
fn function_entry(found: Option<Entity>, k: u32) -> Entry
    ensures { result ≡ function_entry found k }
{
    match found {
        Some(Entity::Library(j, _)) => Entry::Library(j),
        Some(
            Entity::Local(_, _)
            | Entity::Static(_)
            | Entity::Routine(_)
            | Entity::Alias(_)
            | Entity::Enumerator(_),
        )
        | None => Entry::Fun(k),
    }
}

// A function without a body.
fn without_body(alloc: Global, d: Decl) -> FunDef
    ensures { (file : List ℕ) (ts : List Ty) → fun_kept file ts result ≡ declared_at file ts d.name d.pos d.of }
{
    FunDef {
        name: d.name,
        pos: d.pos,
        of: d.of,
        params: Sequence::from_vec(Vec::new(alloc)),
        vars: Sequence::from_vec(Vec::new(alloc)),
        body: 0,
    }
}

// A function gets another type. It takes no memory.
fn set_type(alloc: Global, funs: &mut Sequence<FunDef>, k: u32, of: u32)
    ensures { funs.new ≡ changed_at (λ (f : FunDef). record f { of = of }) funs.old k }
{
    let mut items = taken(alloc, funs);
    if (k as usize) < items.len() {
        items[k as usize].of = of;
    }
    put(funs, items);
}

// A function gets another name and place. It takes no memory.
fn set_name(alloc: Global, funs: &mut Sequence<FunDef>, k: u32, name: Span, pos: Pos)
    ensures { funs.new ≡ changed_at (λ (f : FunDef). record f { name = name; pos = pos }) funs.old k }
{
    let mut items = taken(alloc, funs);
    if (k as usize) < items.len() {
        let function = &mut items[k as usize];
        function.name = name;
        function.pos = pos;
    }
    put(funs, items);
}

impl<'a> Scopes<'a> {
    // Whether the definition of a function was begun.
    fn is_begun(&self, k: u32) -> bool
        ensures { result ≡ begun_at (slice_get self.now.begun.items k) }
    {
        self.begun.get(k as usize).copied().unwrap_or(false)
    }

    // Whether a declaration agrees with a function that was declared before.
    fn routine_agrees(&self, p: &Typed, k: u32, of: u32, defines: bool) -> Result<bool, NoMemory>
        ensures { IfOk result (λ r. (s : State) → Stands self.now p.now s → of < length p.now.types →
            r ≡ agrees_routine (slice_get s.routines k) (type_named p.now of) defines) }
    {
        match p.funs.as_slice().get(k as usize) {
            None => Ok(false),
            Some(function) => {
                let agrees = self.agree(p, Lengths::Compatible, function.of, of)?;
                Ok(agree_with(agrees, defines, self.is_begun(k)))
            }
        }
    }

    // Whether a declaration agrees with that of a library function, perhaps one without a type.
    fn library_agrees(
        &self,
        p: &Typed,
        library: Option<u32>,
        of: u32,
        defines: bool,
    ) -> Result<bool, NoMemory>
        ensures { IfOk result (λ r. of < length p.now.types →
            r ≡ agrees_library (joined (option_map (named (types_of p.now.types)) library))
            (type_named p.now of) defines) }
    {
        match library {
            None => Ok(false),
            Some(known) => {
                let agrees = self.agree(p, Lengths::Compatible, known, of)?;
                Ok(agree_with(agrees, defines, true))
            }
        }
    }

    // Whether the declaration of a function agrees with what was found of its name.
    fn function_agrees(
        &self,
        p: &Typed,
        found: Option<Entity>,
        d: Decl,
        defines: bool,
    ) -> Result<bool, NoMemory>
        ensures { IfOk result (λ r. (s : State) → Stands self.now p.now s → d.of < length p.now.types →
            r ≡ function_seen s (option_map (entity_kept (types_of p.now.types)) found)
            (text_at self.now.file.now d.name) (type_named p.now d.of) defines) }
    {
        match found {
            None => Ok(self.look_linked(self.text(d.name)).is_none()),
            Some(entity) => match routine_number(entity) {
                Some(k) => self.routine_agrees(p, k, d.of, defines),
                None => self.library_agrees(p, library_type(entity), d.of, defines),
            },
        }
    }

    // Whether what has a body agrees with what was found of its name: as a function or, where its type is none, as an
    // object.
    fn definition_agrees(&self, p: &Typed, found: Option<Entity>, d: Decl) -> Result<bool, NoMemory>
        ensures { IfOk result (λ r. (s : State) → Stands self.now p.now s → d.of < length p.now.types →
            r ≡ definition_seen s (option_map (entity_kept (types_of p.now.types)) found)
            (text_at self.now.file.now d.name) (type_named p.now d.of)) }
    {
        if is_function(p.types.as_slice(), d.of) {
            self.function_agrees(p, found, d, true)
        } else {
            self.object_agrees(p, found, d, true)
        }
    }

    // A new function, which its name denotes from here on.
    fn new_routine(&mut self, p: &mut Typed, d: Decl) -> Result<u32, NoMemory>
        ensures ok { IfOk result (λ k. (s : State) → Stands self.old p.old s → d.of < length p.old.types →
            Given self.new p.new (new_routine (name_of self.old.file.now d) (type_named p.old d.of) s)
            (IsNumber k)) }
        ensures err { OnErr result (p.new ≡ p.old) }
        ensures keeps { OnErr result (Keeps self.old self.new p.old) }
        ensures extends { Extends p.old p.new }
        ensures file { self.new.file.now ≡ self.old.file.now }
    {
        let k = next_number(self.begun.as_slice())?;
        self.begun.reserve(1)?;
        self.reserve_name()?;
        append(self.alloc, &mut p.funs, without_body(self.alloc, d))?;
        self.bind(self.text(d.name), routine(k))?;
        self.begun.push(false)?;
        Ok(k)
    }

    // The number of the composite of the type of a function and another type.
    fn merged_routine(&mut self, p: &mut Typed, k: u32, of: u32) -> Result<u32, NoMemory>
        ensures adds { AddsTypes p.old p.new }
        ensures ok { IfOk result (λ u. (f : FunDef) (t v : Ty) → slice_get p.old.funs k ≡ Some f →
            named (types_of p.old.types) f.of ≡ Some t → named (types_of p.old.types) of ≡ Some v →
            named (types_of p.new.types) u ≡ Some (composite t v)) }
        ensures err { OnErr result (p.new ≡ p.old) }
        ensures keeps { (s : State) → Stands self.old p.old s → Stands self.new p.new s }
        ensures others { self.new ≡ record self.old { numbers = self.new.numbers } }
        ensures file { self.new.file.now ≡ self.old.file.now }
    {
        let before = match p.funs.as_slice().get(k as usize) {
            None => of,
            Some(function) => function.of,
        };
        self.merged(p, before, of)
    }

    // A function that is known gets the composite type.
    fn known_routine(&mut self, p: &mut Typed, k: u32, d: Decl) -> Result<u32, NoMemory>
        ensures ok { IfOk result (λ j. (s : State) → Stands self.old p.old s → d.of < length p.old.types →
            Given self.new p.new (known_routine k (type_named p.old d.of) s) (IsNumber j)) }
        ensures err { OnErr result (p.new ≡ p.old) }
        ensures keeps { OnErr result (Keeps self.old self.new p.old) }
        ensures extends { Extends p.old p.new }
        ensures file { self.new.file.now ≡ self.old.file.now }
    {
        let of = self.merged_routine(p, k, d.of)?;
        set_type(self.alloc, &mut p.funs, k, of);
        Ok(k)
    }

    // The function that a declaration is of: that of its name, or a new one. A library function has no number, and 0
    // stands for it.
    fn linked_routine(
        &mut self,
        p: &mut Typed,
        found: Option<Entity>,
        d: Decl,
    ) -> Result<u32, NoMemory>
        ensures ok { IfOk result (λ k. (s : State) (e : Option Meant) → Stands self.old p.old s →
            d.of < length p.old.types →
            option_map (entity_kept (types_of p.old.types)) found ≡ option_map entity_seen e →
            Given self.new p.new (linked_routine (name_of self.old.file.now d) (type_named p.old d.of) e s)
            (IsNumber k)) }
        ensures err { OnErr result (p.new ≡ p.old) }
        ensures keeps { OnErr result (Keeps self.old self.new p.old) }
        ensures extends { Extends p.old p.new }
        ensures file { self.new.file.now ≡ self.old.file.now }
    {
        match found {
            None => self.new_routine(p, d),
            Some(entity) => match routine_number(entity) {
                Some(k) => self.known_routine(p, k, d),
                None => Ok(0),
            },
        }
    }

    // Whether the declaration of a function agrees with what its name denotes.
    fn function_fits(&self, p: &Typed, found: Option<Entity>, d: Decl) -> Result<bool, NoMemory>
        ensures { IfOk result (λ r. (s : State) → Stands self.now p.now s → d.of < length p.now.types →
            option_map (entity_kept (types_of p.now.types)) found
            ≡ option_map entity_seen (find_in (innermost s.scopes).names (text_at self.now.file.now d.name)) →
            r ≡ function_fits s (text_at self.now.file.now d.name) (type_named p.now d.of)) }
    {
        if self.is_at_file_scope() {
            self.function_agrees(p, found, d, false)
        } else {
            Ok(found.is_none())
        }
    }

    // A function is declared.
    pub(crate) fn declare_function(&mut self, p: &mut Typed, d: Decl) -> Result<Entry, Refusal>
        ensures answers { d.of < length p.old.types →
            Answers self.old p.old self.new p.new (declares_function (name_of self.old.file.now d)
            (formed_of p.old d) d.defines) (IsDeclared p.new) result }
        ensures extends { Extends p.old p.new }
        ensures file { self.new.file.now ≡ self.old.file.now }
    {
        let found = self.look_here(self.text(d.name));
        let fits = self.function_fits(p, found, d)?;
        let misfits = either(d.defines, !self.is_at_file_scope());
        match admit(fits, d.faults, false, misfits, d.pos) {
            Err(refusal) => Err(refusal),
            Ok(()) => {
                let k = self.linked_routine(p, found, d)?;
                Ok(function_entry(found, k))
            }
        }
    }

    // The definition of a function is begun: it has the name and the place of that, and no locals yet. It takes no
    // memory.
    fn begin_routine(&mut self, p: &mut Typed, k: u32, d: Decl)
        ensures stands { (s : State) → Stands self.old p.old s →
            Stands self.new p.new (change_routine k
            (λ (r : RoutineState). record r { name = name_of self.old.file.now d; begun = true })
            (record s { locals = [] })) }
        ensures types { p.new.types ≡ p.old.types }
        ensures extends { Extends p.old p.new }
        ensures file { self.new.file.now ≡ self.old.file.now }
    {
        set_name(self.alloc, &mut p.funs, k, d.name, d.pos);
        self.locals = Vec::new(self.alloc);
        if (k as usize) < self.begun.len() {
            self.begun[k as usize] = true;
        }
    }

    /// The definition of a function is declared (C11 6.9.1). The answer is the function's number. A refusal is as that
    /// of `declare`.
    pub fn declare_definition(&mut self, p: &mut Typed, d: Decl) -> Result<u32, Refusal>
        ensures answers { d.of < length p.old.types →
            Answers self.old p.old self.new p.new (declares_definition (storage_of d.storage)
            (name_of self.old.file.now d) (formed_of p.old d)) IsNumber result }
        ensures extends { Extends p.old p.new }
        ensures file { self.new.file.now ≡ self.old.file.now }
    {
        let found = self.look_here(self.text(d.name));
        let fits = self.definition_agrees(p, found, d)?;
        let misfits = either(
            is_typedef(d.storage),
            !is_function(p.types.as_slice(), d.of),
        );
        match admit(fits, d.faults, false, misfits, d.pos) {
            Err(refusal) => Err(refusal),
            Ok(()) => {
                let k = self.linked_routine(p, found, d)?;
                self.begin_routine(p, k, d);
                Ok(k)
            }
        }
    }
}
