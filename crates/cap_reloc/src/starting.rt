//! The table, the globals and the literals under a map.
ghost use Rattle.std.specs.Prelude.{◌≡◌, length, IfOk};
ghost use Rattle.std.specs.List.{All};
ghost use Rattle.c_tree.specs.Typing.{Sound};
ghost use Rattle.obj_mem.specs.Agreement.{Paired};
ghost use Rattle.obj_mem.specs.Needs.{Legal};
ghost use Rattle.obj_mem.specs.Table.{table_length};
ghost use Rattle.cap_reloc.specs.Begins.{asked_by, beginning, IsRelocation, IsInside};
ghost use Rattle.cap_reloc.specs.Initial.{AreInitial, ObjectsBegin};
ghost use Rattle.cap_reloc.specs.Stored.{IsPointer};

use crate::beginning::Table;
use crate::bytes::{initial_bytes, stretch_of};
use crate::pointers::{object_pointers, put_functions};
use crate::relocations::relocations;
use c_tree::Typed;
use ck_base::NoMemory;
use obj_mem::Map;
use std::alloc::Global;

/// The relocations of a program that typing gives, under a legal map, and the bytes of its initial data.
///
/// The table has 16 bytes for each global, each literal and each function, for the heap and for the allocator's own
/// state. Each of its relocations is the pointer to a whole object, the sentry of a function, or the capability of the
/// whole heap; each of a global's is one of the pointers with which it begins. The bytes reach from the lowest base of
/// the table, the globals and the literals to their highest end, filled to a multiple of 16.
pub fn table(alloc: Global, m: &Map, p: &Typed) -> Result<Table, NoMemory>
    requires sound { Sound p.now }
    requires legal { Legal p.now m.now }
    requires length { m.now.table.1 ≡ table_length (asked_by p.now) }

    // Each relocation is that of what begins at its place, and stores the bits of that value.
    ensures relocs { IfOk result (λ t. Paired (IsRelocation m.now) (beginning p.now m.now) t.relocs.items) }
    ensures places { IfOk result (λ t. All (IsInside t.base (length t.bytes.items)) t.relocs.items) }

    // A machine can store it as it is; it is the sentry of an entry, or a pointer without Execute whose bounds lie off
    // the text.
    ensures pointers { IfOk result (λ t. All (IsPointer m.now) t.relocs.items) }
    ensures bytes { IfOk result (λ t. AreInitial p.now m.now t.base t.bytes.items) }

    // Each object and the table begin so, and what is none of theirs is zero.
    ensures objects { IfOk result (λ t. ObjectsBegin p.now m.now t.base t.bytes.items) }
{
    let mut pointers = object_pointers(alloc, m, p)?;
    let stretch = stretch_of(m.table, &pointers);
    put_functions(&mut pointers, m, p)?;
    let relocs = relocations(alloc, m, p, &pointers)?;
    let bytes = initial_bytes(alloc, m, p, stretch)?;
    Ok(Table {
        relocs,
        base: stretch.base,
        bytes,
    })
}
