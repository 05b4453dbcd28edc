//! Typedef names are declared.
ghost use Rattle.std.specs.Prelude.{◌≡◌, List, ◌<◌, length, option_map, IfOk};
ghost use Rattle.c_tree.specs.Types.{Ty};
ghost use Rattle.c_tree.specs.Scopes.{State};
ghost use Rattle.c_tree.specs.Views.{types_of};
ghost use Rattle.c_interner.specs.Numbers.{type_named};
ghost use Rattle.c_types.specs.Calls.{Answers, IsDeclared};
ghost use Rattle.c_types.specs.Declares.{name_of, formed_of, declares_alias};
ghost use Rattle.c_types.specs.Fitting.{seen_alias, alias_seen, alias_fits};
ghost use Rattle.c_types.specs.Stands.{Stands, named, entity_kept, text_at};

use crate::entries::{Decl, Entity, Entry};
use crate::judging::admit;
use crate::scopes::Scopes;
use c_interner::Lengths;
use c_tree::Typed;
use ck_base::{NoMemory, Refusal};

fn alias(of: u32) -> Entity
    ensures { result ≡ Entity.Alias of }
{
    Entity::Alias(of)
}

// The number of the type of a typedef name.
fn alias_of(entity: Entity) -> Option<u32>
    ensures { (ts : List Ty) → option_map (named ts) result ≡ seen_alias (entity_kept ts entity) }
{
    match entity {
        Entity::Alias(of) => Some(of),
        Entity::Local(_, _)
        | Entity::Static(_)
        | Entity::Routine(_)
        | Entity::Enumerator(_)
        | Entity::Library(_, _) => None,
    }
}

impl<'a> Scopes<'a> {
    // Whether a typedef name may be declared again: it denotes the same type (C11 6.7p3).
    fn alias_agrees(&self, p: &Typed, found: Option<Entity>, of: u32) -> Result<bool, NoMemory>
        ensures { IfOk result (λ r. of < length p.now.types →
            r ≡ alias_seen (option_map (entity_kept (types_of p.now.types)) found) (type_named p.now of)) }
    {
        match found {
            None => Ok(true),
            Some(entity) => match alias_of(entity) {
                None => Ok(false),
                Some(known) => self.agree(p, Lengths::Equal, known, of),
            },
        }
    }

    // Whether the declaration of a typedef name agrees with what the name denotes.
    fn alias_fits(&self, p: &Typed, d: Decl) -> Result<bool, NoMemory>
        ensures { IfOk result (λ r. (s : State) → Stands self.now p.now s → d.of < length p.now.types →
            r ≡ alias_fits s (text_at self.now.file.now d.name) (type_named p.now d.of)) }
    {
        let name = self.text(d.name);
        if self.is_at_file_scope() {
            self.alias_agrees(p, self.look_here(name), d.of)
        } else {
            Ok(self.is_new(name))
        }
    }

    // A typedef name is declared (C11 6.7.8).
    pub(crate) fn declare_alias(&mut self, p: &Typed, d: Decl) -> Result<Entry, Refusal>
        ensures is { d.of < length p.now.types →
            Answers self.old p.now self.new p.now (declares_alias (name_of self.old.file.now d)
            (formed_of p.now d) d.defines) (IsDeclared p.now) result }
        ensures file { self.new.file.now ≡ self.old.file.now }
    {
        let fits = self.alias_fits(p, d)?;
        match admit(fits, d.faults, false, d.defines, d.pos) {
            Err(refusal) => Err(refusal),
            Ok(()) => {
                self.bind(self.text(d.name), alias(d.of))?;
                Ok(Entry::Typedef(d.of))
            }
        }
    }
}
