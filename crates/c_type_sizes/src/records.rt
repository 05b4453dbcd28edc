//! Structs and unions from the end of their members.

ghost use Rattle.std.specs.Prelude.{ℕ, Bool, List, Option, IfOk};
ghost use Rattle.c_tree.specs.Layout.{Extent, members, no_members, whole, with_extent};
ghost use Rattle.c_tree.specs.declared.typed.Member.{Member};
ghost use Rattle.cap_layout.specs.Answers.{IsLayout};
ghost use Rattle.cap_layout.specs.Walks.{placing};
ghost use Rattle.c_type_sizes.specs.Sizes.{IsModest, IsRecordRoom};

use crate::extents::finished;
use crate::rooms::Room;
use cap_layout::{LIMIT, Layout, LayoutFault};

/// What a struct or union takes, by the end of its members (C11 6.7.2.1p15 to p17): nothing is known while one of them
/// is not complete, and the answer is TooLarge exactly for more than 67,108,864 bytes.
pub fn whole_room(end: Result<Layout, LayoutFault>) -> Result<Option<Room>, LayoutFault>
    requires modest { IfOk end IsModest }
    ensures { (shared : Bool) (go : ℕ → Option Extent) (ms : List Member) →
        IsLayout (members (placing shared) go ms no_members) end →
        IsRecordRoom (with_extent (members (placing shared) go ms no_members) whole) result }
{
    match end {
        Err(LayoutFault::Incomplete) => Ok(None),
        Err(LayoutFault::TooLarge) => Err(LayoutFault::TooLarge),
        Ok(end) => {
            let l = finished(end);
            if l.size > LIMIT {
                Err(LayoutFault::TooLarge)
            } else {
                Ok(Some(Room {
                    size: l.size,
                    align: l.align,
                }))
            }
        }
    }
}
