//! The sizes of types, where the structs and unions are those of the scopes.
ghost use Rattle.std.specs.Prelude.{◌≡◌, ◌<◌, ◌≤◌, true, List, option_map, slice_get, IfOk, IfSome};
ghost use Rattle.c_tree.specs.Layout.{size_limit, members, no_members};
ghost use Rattle.c_tree.specs.Scopes.{Part, State, is_complete, type_extent, tag_extent};
ghost use Rattle.cap_layout.specs.Answers.{greatest_align, extent_is, IsLayout};
ghost use Rattle.cap_layout.specs.Walks.{placing};
ghost use Rattle.c_interner.specs.Numbers.{type_named};
ghost use Rattle.c_tree.specs.declared.syntax.RecordKind.TheVariants.{Struct};
ghost use Rattle.c_tree.specs.Views.{types_of};
ghost use Rattle.c_types.specs.Calls.{HasParts};
ghost use Rattle.c_type_sizes.specs.Sizes.{IsModest, numbered_extent};
ghost use Rattle.c_types.specs.Sizes.{AreStarts};
ghost use Rattle.c_types.specs.Stands.{Stands};

use crate::scopes::Scopes;
use c_tree::{Member, Typed};
use c_type_sizes::{Base, placed, repeated, row_of, start_of};
use cap_layout::{LIMIT, Layout, LayoutFault};
use ck_base::NoMemory;

impl<'a> Scopes<'a> {
    fn room_of(&self, n: u32) -> Option<Layout>
        ensures is { (p : Typed) (s : State) → Stands self.now p s →
            tag_extent (slice_get s.tags n) ≡ option_map extent_is result }
        ensures modest { IfSome result IsModest }
    {
        match self.tags.get(n as usize) {
            None => None,
            Some(tag) => match tag.room {
                None => None,
                Some(room) => Some(room.layout()),
            },
        }
    }

    /// The size and the alignment of a type (C11 6.2.8, 6.5.3.4). The answer is Incomplete exactly for a type that is
    /// not complete here, and TooLarge exactly for a complete one of more than 67,108,864 bytes.
    pub fn layout(&self, p: &Typed, t: u32) -> Result<Layout, LayoutFault>
        ensures is { (s : State) → Stands self.now p.now s → IsLayout (type_extent s.tags (type_named p.now t)) result }
        ensures modest { IfOk result IsModest }
    {
        let row = row_of(p.types.as_slice(), t);
        match row.base {
            Base::Missing => Err(LayoutFault::Incomplete),
            Base::Scalar(size) => repeated(Layout { size, align: size }, row.count),
            Base::Tagged(n) => match self.room_of(n) {
                None => Err(LayoutFault::Incomplete),
                Some(room) => repeated(room, row.count),
            },
        }
    }

    /// Whether a type is a complete object type (C11 6.2.5p1).
    pub fn is_complete(&self, p: &Typed, t: u32) -> bool
        ensures { (s : State) → Stands self.now p.now s → result ≡ is_complete s (type_named p.now t) }
    {
        match self.layout(p, t) {
            Ok(_) | Err(LayoutFault::TooLarge) => true,
            Err(LayoutFault::Incomplete) => false,
        }
    }

    // Where the first members of a struct begin, as far as they are complete and within the limit.
    pub(crate) fn starts_of(&self, p: &Typed, ms: &[Member]) -> Result<Vec<u64>, NoMemory>
        ensures { IfOk result (λ starts. (s : State) (parts : List Part) → Stands self.now p.now s →
            HasParts (types_of p.now.types) parts ms.now → AreStarts s.tags Struct parts starts.items) }
    {
        let mut starts = Vec::new(self.alloc);
        let mut end = Layout { size: 0, align: 1 };
        for m in ms {
            if end.size > LIMIT {
                return Ok(starts);
            }
            match self.layout(p, m.of) {
                Err(_) => return Ok(starts),
                Ok(l) => {
                    starts.push(start_of(l, end))?;
                    end = placed(l, end, false);
                }
            }
        }
        Ok(starts)
    }

    // The end of members, which share their bytes or stand behind one another.
    pub(crate) fn members_end(
        &self,
        p: &Typed,
        ms: &[Member],
        shared: bool,
    ) -> Result<Layout, LayoutFault>
        ensures is { (s : State) → Stands self.now p.now s →
            IsLayout (members (placing shared) (numbered_extent s.tags p.now.types) ms.now no_members) result }
        ensures modest { IfOk result IsModest }
    {
        let mut end = Layout { size: 0, align: 1 };
        let mut large = false;
        for m in ms {
            match self.layout(p, m.of) {
                Err(LayoutFault::Incomplete) => return Err(LayoutFault::Incomplete),
                Err(LayoutFault::TooLarge) => large = true,
                Ok(l) => {
                    if !large {
                        end = placed(l, end, shared);
                        large = end.size > LIMIT;
                    }
                }
            }
        }
        if large {
            Err(LayoutFault::TooLarge)
        } else {
            Ok(end)
        }
    }
}
