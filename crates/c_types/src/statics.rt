//! Objects of static storage duration are declared (C11 6.2.2, 6.2.4p3, 6.9.2).
ghost use Rattle.std.specs.Prelude.{◌≡◌, ℕ, List, Bool, true, false, not, ◌&&◌, ◌||◌, ◌<◌, length, Some, None};
ghost use Rattle.std.specs.Prelude.{option_map, bytes_eq, if◌then◌else◌, slice_get, IfOk, IsOk, OnOk, OnErr};
ghost use Rattle.std.specs.Map.{lookup};
ghost use Rattle.indexmap.specs.IndexMap.{spare};
ghost use Rattle.c_tree.specs.Declarations.{new_static, known_static, linked_static, linked, agrees_static};
ghost use Rattle.c_tree.specs.Declarations.{is_external, named_function, may_be_external};
ghost use Rattle.c_tree.specs.Scopes.{State, changed_at, change_static, find_in, innermost};
ghost use Rattle.c_tree.specs.Types.{Ty, composite};
ghost use Rattle.c_tree.specs.Views.{types_of};
ghost use Rattle.c_tree.specs.declared.typed.GlobalDef.{GlobalDef};
ghost use Rattle.c_interner.specs.Numbers.{AddsTypes, type_named};
ghost use Rattle.c_types.specs.Calls.{Given, Keeps, Answers, Extends, IsDeclared};
ghost use Rattle.c_types.specs.Declares.{storage_of, name_of, formed_of, declares_internal, declares_external};
ghost use Rattle.c_types.specs.Declares.{declares_global};
ghost use Rattle.c_types.specs.Fitting.{seen_static, object_seen, external_seen, external_fits, callee_seen};
ghost use Rattle.c_types.specs.Naming.{IsNumber, given_at};
ghost use Rattle.c_types.specs.Rooms.{HasNameRoom};
ghost use Rattle.c_types.specs.Stands.{Stands, named, global_kept, declared_at, entity_kept, text_at};
ghost use Rattle.c_types.specs.declared.scopes.ObjectInfo.{ObjectInfo};

use crate::entries::{Decl, Entity, Entry, Storage};
use crate::judging::{admit, either};
use crate::lists::{put, taken};
use crate::scopes::{ObjectInfo, Scopes};
use c_interner::{Lengths, append, next_number};
use c_tree::{GlobalDef, Typed};
use ck_base::{NoMemory, Refusal, Sequence};
use std::alloc::Global;
use text_keys::TextKey;

fn object(k: u32) -> Entity
    ensures { result ≡ Entity.Static k }
{
    Entity::Static(k)
}

// The number of an object.
fn object_number(entity: Entity) -> Option<u32>
    ensures { (ts : List Ty) → result ≡ seen_static (entity_kept ts entity) }
{
    match entity {
        Entity::Static(k) => Some(k),
        Entity::Local(_, _)
        | Entity::Alias(_)
        | Entity::Routine(_)
        | Entity::Enumerator(_)
        | Entity::Library(_, _) => None,
    }
}

// Two definitions do not agree.
pub(crate) fn agree_with(agrees: bool, defines: bool, defined: bool) -> bool
    ensures { result ≡ (agrees && not (defines && defined)) }
{
    if agrees {
        if defines { !defined } else { true }
    } else {
        false
    }
}

fn all_three(external: bool, function: bool, agrees: bool) -> bool
    ensures { result ≡ (external && not function && agrees) }
{
    if external {
        if function { false } else { agrees }
    } else {
        false
    }
}

// Whether a declaration of an object at file scope defines it, perhaps tentatively (C11 6.9.2).
fn is_definition(d: Decl) -> bool
    ensures { result ≡ (d.defines || not (is_external (storage_of d.storage))) }
{
    if d.defines {
        true
    } else {
        match d.storage {
            Storage::Extern => false,
            Storage::Plain | Storage::Static | Storage::Typedef => true,
        }
    }
}

// A function or a library function.
fn is_callee(found: Option<Entity>) -> bool
    ensures { (ts : List Ty) → result ≡ callee_seen (option_map (entity_kept ts) found) }
{
    match found {
        None => false,
        Some(entity) => match entity {
            Entity::Routine(_) | Entity::Library(_, _) => true,
            Entity::Local(_, _) | Entity::Static(_) | Entity::Alias(_) | Entity::Enumerator(_) =>
                false,
        },
    }
}

// An object of zeros.
fn zeros(alloc: Global, d: Decl) -> GlobalDef
    ensures { (file : List ℕ) (ts : List Ty) → global_kept file ts result ≡ declared_at file ts d.name d.pos d.of }
{
    GlobalDef {
        name: d.name,
        pos: d.pos,
        of: d.of,
        bytes: Sequence::from_vec(Vec::new(alloc)),
        links: Sequence::from_vec(Vec::new(alloc)),
    }
}

// An object gets another type. It takes no memory.
pub(crate) fn set_type(alloc: Global, globals: &mut Sequence<GlobalDef>, k: u32, of: u32)
    ensures { globals.new ≡ changed_at (λ (g : GlobalDef). record g { of = of }) globals.old k }
{
    let mut items = taken(alloc, globals);
    if (k as usize) < items.len() {
        items[k as usize].of = of;
    }
    put(globals, items);
}

impl<'a> Scopes<'a> {
    // Room for one more ordinary name in the innermost scope.
    pub(crate) fn reserve_name(&mut self) -> Result<(), NoMemory>
        ensures room { OnOk result (HasNameRoom self.new.scopes.items) }
        ensures others { self.new ≡ record self.old { scopes = self.new.scopes } }
        ensures keeps { (p : Typed) → Keeps self.old self.new p }
        ensures file { self.new.file.now ≡ self.old.file.now }
    {
        let count = self.scopes.len();
        if count > 0 {
            self.scopes[count - 1].reserve_name()?;
        }
        Ok(())
    }

    // The number of the object with linkage that has a name.
    pub(crate) fn look_linked(&self, name: &[u8]) -> Option<u32>
        ensures is { result ≡ lookup (λ k. bytes_eq name.now k.bytes.now) self.now.linked.entries }
        ensures seen { (p : Typed) (s : State) → Stands self.now p s → result ≡ linked s name.now }
    {
        self.linked.get(&TextKey { bytes: name }).copied()
    }

    // A name is that of an object with linkage from here on, if the object has linkage.
    fn note_linked(&mut self, name: &'a [u8], k: u32, linkage: bool) -> Result<(), NoMemory>
        ensures ok { OnOk result ((n : List ℕ) →
            lookup (λ k. bytes_eq n k.bytes.now) self.new.linked.entries
            ≡ (if linkage && bytes_eq name.entry.now n then Some k
            else lookup (λ k. bytes_eq n k.bytes.now) self.old.linked.entries)) }
        ensures others { self.new ≡ record self.old { linked = self.new.linked } }
        ensures succeeds { 0 < spare self.old.linked → IsOk result }
        ensures file { self.new.file.now ≡ self.old.file.now }
    {
        if linkage {
            self.linked.insert(TextKey { bytes: name }, k)?;
        }
        Ok(())
    }

    // Whether an object has an initialiser.
    fn is_given(&self, k: u32) -> bool
        ensures { result ≡ given_at (slice_get self.now.objects.items k) }
    {
        match self.object(k) {
            None => false,
            Some(object) => object.given,
        }
    }

    // Whether a declaration agrees with an object that was declared before.
    fn static_agrees(&self, p: &Typed, k: u32, of: u32, defines: bool) -> Result<bool, NoMemory>
        ensures { IfOk result (λ r. (s : State) → Stands self.now p.now s → of < length p.now.types →
            r ≡ agrees_static (slice_get s.statics k) (type_named p.now of) defines) }
    {
        match p.globals.as_slice().get(k as usize) {
            None => Ok(false),
            Some(global) => {
                let agrees = self.agree(p, Lengths::Compatible, global.of, of)?;
                Ok(agree_with(agrees, defines, self.is_given(k)))
            }
        }
    }

    // Whether the declaration of an object agrees with what was found of its name, or else with the object with linkage
    // of that name.
    pub(crate) fn object_agrees(
        &self,
        p: &Typed,
        found: Option<Entity>,
        d: Decl,
        defines: bool,
    ) -> Result<bool, NoMemory>
        ensures { IfOk result (λ r. (s : State) → Stands self.now p.now s → d.of < length p.now.types →
            r ≡ object_seen s (option_map (entity_kept (types_of p.now.types)) found)
            (text_at self.now.file.now d.name) (type_named p.now d.of) defines) }
    {
        match found {
            None => match self.look_linked(self.text(d.name)) {
                None => Ok(true),
                Some(k) => self.static_agrees(p, k, d.of, defines),
            },
            Some(entity) => match object_number(entity) {
                None => Ok(false),
                Some(k) => self.static_agrees(p, k, d.of, defines),
            },
        }
    }

    // A new object, which its name denotes from here on.
    fn new_object(
        &mut self,
        p: &mut Typed,
        d: Decl,
        linkage: bool,
        defined: bool,
    ) -> Result<u32, NoMemory>
        ensures ok { IfOk result (λ j. (s : State) → Stands self.old p.old s → d.of < length p.old.types →
            (linkage ≡ true → linked s (text_at self.old.file.now d.name) ≡ None) →
            Given self.new p.new (new_static (name_of self.old.file.now d)
            (type_named p.old d.of) linkage defined s) (IsNumber j)) }
        ensures err { OnErr result (p.new ≡ p.old) }
        ensures keeps { OnErr result (Keeps self.old self.new p.old) }
        ensures extends { Extends p.old p.new }
        ensures file { self.new.file.now ≡ self.old.file.now }
    {
        let k = next_number(self.objects.as_slice())?;
        self.objects.reserve(1)?;
        self.linked.reserve(1)?;
        self.reserve_name()?;
        append(self.alloc, &mut p.globals, zeros(self.alloc, d))?;
        let name = self.text(d.name);
        self.bind(name, object(k))?;
        self.note_linked(name, k, linkage)?;
        self.objects.push(ObjectInfo {
            linked: linkage,
            defined,
            given: false,
        })?;
        Ok(k)
    }

    // An object is defined, if it was not yet.
    fn note_defined(&mut self, k: u32, defined: bool)
        ensures others { self.new ≡ record self.old { objects = self.new.objects } }
        ensures objects { self.new.objects.items
            ≡ changed_at (λ (o : ObjectInfo). record o { defined = o.defined || defined }) self.old.objects.items k }
        ensures file { self.new.file.now ≡ self.old.file.now }
    {
        if (k as usize) < self.objects.len() {
            let object = &mut self.objects[k as usize];
            object.defined = either(object.defined, defined);
        }
    }

    // The number of the composite of the type of an object and another type.
    fn merged_object(&mut self, p: &mut Typed, k: u32, of: u32) -> Result<u32, NoMemory>
        ensures adds { AddsTypes p.old p.new }
        ensures ok { IfOk result (λ u. (g : GlobalDef) (t v : Ty) → slice_get p.old.globals k ≡ Some g →
            named (types_of p.old.types) g.of ≡ Some t → named (types_of p.old.types) of ≡ Some v →
            named (types_of p.new.types) u ≡ Some (composite t v)) }
        ensures err { OnErr result (p.new ≡ p.old) }
        ensures keeps { (s : State) → Stands self.old p.old s → Stands self.new p.new s }
        ensures others { self.new ≡ record self.old { numbers = self.new.numbers } }
        ensures file { self.new.file.now ≡ self.old.file.now }
    {
        let before = match p.globals.as_slice().get(k as usize) {
            None => of,
            Some(global) => global.of,
        };
        self.merged(p, before, of)
    }

    // An object that is known gets the composite type, and its name denotes it here too.
    fn known_object(
        &mut self,
        p: &mut Typed,
        k: u32,
        d: Decl,
        defined: bool,
    ) -> Result<u32, NoMemory>
        ensures ok { IfOk result (λ j. (s : State) → Stands self.old p.old s → d.of < length p.old.types →
            Given self.new p.new (known_static (name_of self.old.file.now d) k (type_named p.old d.of) defined s)
            (IsNumber j)) }
        ensures err { OnErr result (p.new ≡ p.old) }
        ensures keeps { OnErr result (Keeps self.old self.new p.old) }
        ensures extends { Extends p.old p.new }
        ensures file { self.new.file.now ≡ self.old.file.now }
    {
        self.reserve_name()?;
        let of = self.merged_object(p, k, d.of)?;
        set_type(self.alloc, &mut p.globals, k, of);
        self.note_defined(k, defined);
        self.bind(self.text(d.name), object(k))?;
        Ok(k)
    }

    // An object with linkage is declared: it is that of its name, or a new one (C11 6.2.2p2).
    fn linked_object(&mut self, p: &mut Typed, d: Decl, defined: bool) -> Result<u32, NoMemory>
        ensures ok { IfOk result (λ j. (s : State) → Stands self.old p.old s → d.of < length p.old.types →
            Given self.new p.new (linked_static (name_of self.old.file.now d) (type_named p.old d.of) defined
            (linked s (text_at self.old.file.now d.name)) s) (IsNumber j)) }
        ensures err { OnErr result (p.new ≡ p.old) }
        ensures keeps { OnErr result (Keeps self.old self.new p.old) }
        ensures extends { Extends p.old p.new }
        ensures file { self.new.file.now ≡ self.old.file.now }
    {
        match self.look_linked(self.text(d.name)) {
            None => self.new_object(p, d, true, defined),
            Some(k) => self.known_object(p, k, d, defined),
        }
    }

    // An object of a block that has static storage duration is declared (C11 6.2.4p3).
    pub(crate) fn declare_internal(&mut self, p: &mut Typed, d: Decl) -> Result<Entry, Refusal>
        ensures answers { d.of < length p.old.types →
            Answers self.old p.old self.new p.new (declares_internal (name_of self.old.file.now d)
            (formed_of p.old d) d.defines) (IsDeclared p.new) result }
        ensures extends { Extends p.old p.new }
        ensures file { self.new.file.now ≡ self.old.file.now }
    {
        let fits = self.is_new(self.text(d.name));
        let ready = self.is_ready(p, d.of, d.defines);
        match admit(fits, d.faults, !ready, false, d.pos) {
            Err(refusal) => Err(refusal),
            Ok(()) => {
                let k = self.new_object(p, d, false, true)?;
                Ok(Entry::Global(k))
            }
        }
    }

    // An object of the file is declared (C11 6.9.2).
    pub(crate) fn declare_global(&mut self, p: &mut Typed, d: Decl) -> Result<Entry, Refusal>
        ensures answers { d.of < length p.old.types →
            Answers self.old p.old self.new p.new (declares_global (storage_of d.storage)
            (name_of self.old.file.now d) (formed_of p.old d) d.defines) (IsDeclared p.new) result }
        ensures extends { Extends p.old p.new }
        ensures file { self.new.file.now ≡ self.old.file.now }
    {
        let found = self.look_here(self.text(d.name));
        let fits = self.object_agrees(p, found, d, d.defines)?;
        let waits = self.may_wait(p, d.of, d.defines);
        match admit(fits, d.faults, !waits, false, d.pos) {
            Err(refusal) => Err(refusal),
            Ok(()) => {
                let k = self.linked_object(p, d, is_definition(d))?;
                Ok(Entry::Global(k))
            }
        }
    }

    // Whether a function or a library function has a name at file scope.
    fn is_function_name(&self, name: &[u8]) -> bool
        ensures { (p : Typed) (s : State) → Stands self.now p s → result ≡ named_function s name.now }
    {
        match self.scopes.first() {
            None => false,
            Some(scope) => is_callee(scope.name(name)),
        }
    }

    // Whether what a name of a block denotes, if anything, may be declared there by `extern`: an object with linkage
    // (C11 6.7p3).
    fn is_new_or_linked(&self, found: Option<Entity>) -> bool
        ensures { (p : Typed) (s : State) → Stands self.now p s →
            result ≡ external_seen s (option_map (entity_kept (types_of p.types)) found) }
    {
        match found {
            None => true,
            Some(entity) => match object_number(entity) {
                None => false,
                Some(k) => self.has_linkage(k),
            },
        }
    }

    // The same of a name of the innermost scope.
    fn may_be_external(&self, name: &[u8]) -> bool
        ensures { (p : Typed) (s : State) → Stands self.now p s →
            result ≡ may_be_external s (find_in (innermost s.scopes).names name.now) }
    {
        self.is_new_or_linked(self.look_here(name))
    }

    // Whether the declaration of an object by `extern` in a block agrees with what its name denotes.
    fn external_fits(&self, p: &Typed, d: Decl) -> Result<bool, NoMemory>
        ensures { IfOk result (λ r. (s : State) → Stands self.now p.now s → d.of < length p.now.types →
            r ≡ external_fits s (text_at self.now.file.now d.name) (type_named p.now d.of)) }
    {
        let name = self.text(d.name);
        let agrees = self.object_agrees(p, None, d, false)?;
        Ok(all_three(
            self.may_be_external(name),
            self.is_function_name(name),
            agrees,
        ))
    }

    // An object of the file is declared by `extern` in a block (C11 6.2.2p4).
    pub(crate) fn declare_external(&mut self, p: &mut Typed, d: Decl) -> Result<Entry, Refusal>
        ensures answers { d.of < length p.old.types →
            Answers self.old p.old self.new p.new (declares_external (name_of self.old.file.now d)
            (formed_of p.old d) d.defines) (IsDeclared p.new) result }
        ensures extends { Extends p.old p.new }
        ensures file { self.new.file.now ≡ self.old.file.now }
    {
        let fits = self.external_fits(p, d)?;
        match admit(fits, d.faults, false, d.defines, d.pos) {
            Err(refusal) => Err(refusal),
            Ok(()) => {
                let k = self.linked_object(p, d, false)?;
                Ok(Entry::Global(k))
            }
        }
    }
}
