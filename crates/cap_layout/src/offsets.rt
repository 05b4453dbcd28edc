//! Where a member begins.
ghost use Rattle.std.specs.Prelude.{◌≡◌, ℕ, ◌+◌, ◌<◌, length};
ghost use Rattle.c_tree.specs.Layout.{bare, members_of, extent, member_at};
ghost use Rattle.cap_layout.specs.Answers.{IsOffset};
ghost use Rattle.cap_layout.specs.Walks.{IsPlace};

use crate::answers::{Layout, LayoutFault};
use crate::members::{placed, start_of};
use crate::records::{Record, record_at};
use crate::shapes::LIMIT;
use crate::sizes::layout;
use c_tree::{Member, Typed};

// Where a member of a struct begins.
fn struct_offset(p: &Typed, ms: &[Member], k: u32) -> Result<u64, LayoutFault>
    requires { k < length ms.now }
    ensures { IsPlace (extent p.now.types) ms.now k result }
{
    let mut end = Layout { size: 0, align: 1 };
    let mut left = k;
    for m in ms {
        let l = layout(p, m.of)?;
        if left == 0 {
            return Ok(start_of(l, end));
        }
        left -= 1;
        end = placed(l, end, false);
        if end.size > LIMIT {
            return Err(LayoutFault::TooLarge);
        }
    }
    unreachable!()
}

/// Where a member of a struct or union begins, in bytes (C11 6.7.2.1): at the least multiple of its alignment that is
/// not below the end of the member before it, or at 0 in a union. The type may be const, and has such a member. The
/// refusals are those of `layout` for the type.
pub fn offset_of(p: &Typed, t: u32, member: u32) -> Result<u64, LayoutFault>
    requires { member < length (members_of (bare p.now.types t)) }
    ensures { IsOffset (extent p.now.types t) (member_at p.now.types t member) result }
{
    let _whole = layout(p, t)?;
    let types = p.types.as_slice();
    match record_at(types, types.len(), t) {
        Record::Other => unreachable!(),
        Record::Struct(ms) => struct_offset(p, ms, member),
        Record::Union(_) => Ok(0),
    }
}
