//! The rules on what is declared.
ghost use Rattle.std.specs.Prelude.{◌≡◌, ℕ, List, ◌||◌, ◌&&◌, not};
ghost use Rattle.c_tree.specs.Declarations.{is_open};
ghost use Rattle.c_tree.specs.Declarators.{is_new, judge};
ghost use Rattle.c_tree.specs.Scopes.{State, at_file_scope};
ghost use Rattle.c_tree.specs.Types.{Ty, is_function};
ghost use Rattle.c_types.specs.Declares.{is_ready, may_wait};
ghost use Rattle.c_tree.specs.Views.{type_at, types_of};
ghost use Rattle.c_interner.specs.Heads.{built};
ghost use Rattle.c_types.specs.Judging.{IsJudged, formed_with, admits};
ghost use Rattle.c_interner.specs.Numbers.{type_named};
ghost use Rattle.c_types.specs.Stands.{Stands};

use crate::entries::Faults;
use crate::scopes::Scopes;
use c_interner::{Head, head_of};
use c_tree::{CType, Typed};
use ck_base::{DECLARED_TWICE, INCOMPLETE_TYPE, MISFIT, Pos, Refusal, TYPE_TOO_LARGE};

/// Whether one of the two is so.
pub fn either(a: bool, b: bool) -> bool
    ensures { result ≡ (a || b) }
{
    if a { true } else { b }
}

// Which rule the type of what is declared breaks, the lowest code first.
fn judge(faults: Faults, lacks: bool, misfits: bool, pos: Pos) -> Result<(), Refusal>
    ensures { (of : Ty) → IsJudged (judge (formed_with of faults) lacks misfits pos) result }
{
    if either(faults.lacks, lacks) {
        return Err(Refusal::Code(INCOMPLETE_TYPE, pos));
    }
    if either(faults.misfits, misfits) {
        return Err(Refusal::Code(MISFIT, pos));
    }
    if faults.too_large {
        return Err(Refusal::Code(TYPE_TOO_LARGE, pos));
    }
    Ok(())
}

/// The tests on a declaration: whether it agrees with what its name denotes, and then the rules on its type.
pub(crate) fn admit(
    fits: bool,
    faults: Faults,
    lacks: bool,
    misfits: bool,
    pos: Pos,
) -> Result<(), Refusal>
    ensures { (of : Ty) → IsJudged (admits fits (formed_with of faults) lacks misfits pos) result }
{
    if !fits {
        return Err(Refusal::Code(DECLARED_TWICE, pos));
    }
    judge(faults, lacks, misfits, pos)
}

fn is_open_level(head: Head) -> bool
    ensures { (ps : List ℕ) (go : ℕ → Ty) → result ≡ is_open (built head ps go) }
{
    match head {
        Head::Array(_, count) => count == 0,
        Head::Void
        | Head::Int(_, _)
        | Head::Cap(_)
        | Head::Tagged(_)
        | Head::Pointer(_)
        | Head::Function(_)
        | Head::Const(_) => false,
    }
}

/// Whether a type is an array whose length is not known.
pub(crate) fn is_open(types: &[CType], of: u32) -> bool
    ensures { result ≡ is_open (type_at (types_of types.now) of) }
{
    match types.get(of as usize) {
        None => false,
        Some(c) => is_open_level(head_of(c)),
    }
}

fn is_function_level(head: Head) -> bool
    ensures { (ps : List ℕ) (go : ℕ → Ty) → result ≡ is_function (built head ps go) }
{
    match head {
        Head::Function(_) => true,
        Head::Void
        | Head::Int(_, _)
        | Head::Cap(_)
        | Head::Tagged(_)
        | Head::Pointer(_)
        | Head::Array(_, _)
        | Head::Const(_) => false,
    }
}

/// Whether a type is that of a function.
pub(crate) fn is_function(types: &[CType], of: u32) -> bool
    ensures { result ≡ is_function (type_at (types_of types.now) of) }
{
    match types.get(of as usize) {
        None => false,
        Some(c) => is_function_level(head_of(c)),
    }
}

fn ready(complete: bool, waits: bool, defines: bool) -> bool
    ensures { result ≡ (complete || (waits && defines)) }
{
    if complete {
        true
    } else if waits {
        defines
    } else {
        false
    }
}

fn waits(complete: bool, endless: bool, defines: bool) -> bool
    ensures { result ≡ (complete || endless || not defines) }
{
    if complete {
        true
    } else if endless {
        true
    } else {
        !defines
    }
}

impl<'a> Scopes<'a> {
    /// Whether the scope in force is that of the file.
    pub fn is_at_file_scope(&self) -> bool
        ensures { (p : Typed) (s : State) → Stands self.now p s → result ≡ at_file_scope s }
    {
        self.scopes.len() == 1
    }

    // Whether the innermost scope has no such ordinary name.
    pub(crate) fn is_new(&self, name: &[u8]) -> bool
        ensures { (p : Typed) (s : State) → Stands self.now p s → result ≡ is_new s name.now }
    {
        self.look_here(name).is_none()
    }

    // Whether an object at file scope may have a type, which may be completed later unless it has an initialiser.
    pub(crate) fn may_wait(&self, p: &Typed, of: u32, defines: bool) -> bool
        ensures { (s : State) → Stands self.now p.now s → result ≡ may_wait s (type_named p.now of) defines }
    {
        waits(
            self.is_complete(p, of),
            is_open(p.types.as_slice(), of),
            defines,
        )
    }

    // Whether an object of a block may have a type, perhaps with an initialiser.
    pub(crate) fn is_ready(&self, p: &Typed, of: u32, defines: bool) -> bool
        ensures { (s : State) → Stands self.now p.now s → result ≡ is_ready s (type_named p.now of) defines }
    {
        ready(
            self.is_complete(p, of),
            is_open(p.types.as_slice(), of),
            defines,
        )
    }
}
