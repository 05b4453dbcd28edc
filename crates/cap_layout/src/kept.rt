//! The layouts of all types of a program, each found once.

ghost use Rattle.std.specs.Prelude.{◌≡◌, ◌<◌, ◌≤◌, List, Option, IfSome, IfOk};
ghost use Rattle.c_tree.specs.Layout.{size_limit, times, whole, with_extent, members, no_members, extent};
ghost use Rattle.cap_layout.specs.Answers.{Layout, Fits, IsLayout, extent_is, greatest_align};
ghost use Rattle.cap_layout.specs.Kept.{AreLayoutsOf};
ghost use Rattle.cap_layout.specs.Walks.{placing, shape_extent, IsSmallShape};

use crate::answers::{Layout, LayoutFault};
use crate::members::placed;
use crate::shapes::{Base, LIMIT, Shape, shape_at, shape_of};
use crate::sizes::{finished, layout, repeated};
use c_tree::{CType, Member, Typed};
use std::alloc::{AllocError, Global};
use std::marker::Model;

/// The layouts of the types of a program.
#[derive(Drop)]
pub struct Layouts {
    found: Vec<Option<Layout>>,
}

impl Model for Layouts {
    ghost Value = { List (Option Layout) };

    ghost view = { λ s. s.found.items };
}

/// Types, and the layouts that were found so far.
#[derive(Clone, Copy)]
struct Known<'a> {
    types: &'a [CType],
    found: &'a [Option<Layout>],
}

/// A type whose parts are looked at, and the first that was not.
#[derive(Clone, Copy)]
struct Visit {
    of: u32,
    part: usize,
}

// A layout that was found.
fn entry(k: Known, t: u32) -> Option<Layout>
    requires { AreLayoutsOf k.types.now k.found.now }
    ensures { IfSome result (λ l. Fits (extent k.entry.types.now t) l) }
{
    match k.found.get(t as usize) {
        None => None,
        Some(l) => *l,
    }
}

// Elements in a row, if they are within the limit.
fn row(l: Layout, count: u64) -> Option<Layout>
    requires size { l.size ≤ 67239936 }
    requires positive { 0 < l.align }
    requires align { l.align ≤ greatest_align }
    requires some { 0 < count }
    ensures { IfSome result (λ r. Fits (times count (extent_is l)) r) }
{
    match repeated(l, count.min(LIMIT + 1)) {
        Ok(r) => Some(r),
        Err(_) => None,
    }
}

// The end of members whose layouts were found, if all were and it is within the limit.
fn fields(k: Known, ms: &[Member], shared: bool) -> Option<Layout>
    requires { AreLayoutsOf k.types.now k.found.now }
    ensures { IfSome result (λ l. Fits (members (placing shared) (extent k.entry.types.now) ms.now no_members) l) }
{
    let mut end = Layout { size: 0, align: 1 };
    for m in ms {
        match entry(k, m.of) {
            None => return None,
            Some(l) => end = placed(l, end, shared),
        }
        if end.size > LIMIT {
            return None;
        }
    }
    Some(end)
}

// A struct or union of such members.
fn record_layout(k: Known, ms: &[Member], shared: bool) -> Option<Layout>
    requires { AreLayoutsOf k.types.now k.found.now }
    ensures { IfSome result (λ l. Fits (with_extent
        (members (placing shared) (extent k.entry.types.now) ms.now no_members) whole) l) }
{
    match fields(k, ms, shared) {
        None => None,
        Some(end) => row(finished(end), 1),
    }
}

// Elements of a type whose layout was found.
fn elements(k: Known, t: u32, count: u64) -> Option<Layout>
    requires { AreLayoutsOf k.types.now k.found.now }
    ensures { IfSome result (λ l. Fits (with_extent (extent k.entry.types.now t) (times count)) l) }
{
    if count == 0 {
        return None;
    }
    match entry(k, t) {
        None => None,
        Some(l) => row(l, count),
    }
}

// One level of a type.
fn shape_layout(k: Known, shape: Shape) -> Option<Layout>
    requires found { AreLayoutsOf k.types.now k.found.now }
    requires small { IsSmallShape shape }
    ensures { IfSome result (λ l. Fits (shape_extent shape.entry (extent k.entry.types.now)) l) }
{
    match shape {
        Shape::Missing => None,
        Shape::Whole(Base::Scalar(size)) => Some(Layout { size, align: size }),
        Shape::Whole(Base::Members(ms, shared)) => record_layout(k, ms, shared),
        Shape::Part(inner, count) => elements(k, inner, count),
    }
}

// The layout of a type by those of its parts, if they were found and it is within the limit.
fn layout_by(k: Known, t: u32) -> Option<Layout>
    requires { AreLayoutsOf k.types.now k.found.now }
    ensures { IfSome result (λ l. Fits (extent k.entry.types.now t) l) }
{
    shape_layout(k, shape_at(k.types, t))
}

// Keeps the layout of a type whose parts were looked at.
fn keep(types: &[CType], found: &mut Vec<Option<Layout>>, t: u32)
    requires { AreLayoutsOf types.now found.old.items }
    ensures { AreLayoutsOf types.now found.new.items }
{
    let k = Known {
        types,
        found: found.as_slice(),
    };
    let l = layout_by(k, t);
    let at = t as usize;
    if at < found.len() {
        found[at] = l;
    }
}

// The type of a part: of an array or a const type the one that it names, of a struct or union that of a member.
fn part_of(types: &[CType], v: Visit) -> Option<u32> {
    match shape_at(types, v.of) {
        Shape::Missing | Shape::Whole(Base::Scalar(_)) => None,
        Shape::Whole(Base::Members(ms, _)) => ms.get(v.part).map(|m| m.of),
        Shape::Part(inner, _) => (v.part == 0).then_some(inner),
    }
}

// Begins to visit a part's type, if it was not visited as a part before.
fn begin(begun: &mut Vec<bool>, visits: &mut Vec<Visit>, t: u32) -> Result<(), AllocError> {
    let at = t as usize;
    if at < begun.len() {
        if !begun[at] {
            begun[at] = true;
            visits.push(Visit { of: t, part: 0 })?;
        }
    }
    Ok(())
}

// One step of the last visit: the type of its next part is visited before it goes on, or it ends, and its type is the
// answer.
fn step(
    types: &[CType],
    begun: &mut Vec<bool>,
    visits: &mut Vec<Visit>,
) -> Result<Option<u32>, AllocError> {
    match visits.pop() {
        None => Ok(None),
        Some(v) => match part_of(types, v) {
            None => Ok(Some(v.of)),
            Some(inner) => {
                let part = v.part.saturating_add(1);
                visits.push(Visit { of: v.of, part })?;
                begin(begun, visits, inner)?;
                Ok(None)
            }
        },
    }
}

// How many steps a visit takes.
fn steps_of(c: &CType) -> u64 {
    match shape_of(c) {
        Shape::Missing | Shape::Whole(Base::Scalar(_)) => 1,
        Shape::Whole(Base::Members(ms, _)) => (ms.len() as u64).saturating_add(1),
        Shape::Part(_, _) => 2,
    }
}

// How many steps all visits take: a type is visited once for itself, and at most once as a part.
fn steps(types: &[CType]) -> u64 {
    let mut steps: u64 = 0;
    for c in types {
        steps = steps
            .saturating_add(steps_of(c))
            .saturating_add(steps_of(c));
    }
    steps
}

// A visit to each type for itself.
fn first_visits(alloc: Global, types: &[CType]) -> Result<Vec<Visit>, AllocError> {
    let count = u32::try_from(types.len()).unwrap_or(u32::MAX);
    let mut visits = Vec::new(alloc);
    for of in 0..count {
        visits.push(Visit { of, part: 0 })?;
    }
    Ok(visits)
}

// The layouts of types, each found when those of its parts are.
fn find(alloc: Global, types: &[CType]) -> Result<Vec<Option<Layout>>, AllocError>
    ensures { IfOk result (λ found. AreLayoutsOf types.now found.items) }
{
    let mut found: Vec<Option<Layout>> = vec![in alloc; None; types.len()]?;
    let mut begun = vec![in alloc; false; types.len()]?;
    let mut visits = first_visits(alloc, types)?;
    for _ in 0..steps(types) {
        if let Some(t) = step(types, &mut begun, &mut visits)? {
            keep(types, &mut found, t);
        }
    }
    Ok(found)
}

impl Layouts {
    /// The layouts of the types of a program, in time that grows with the types and their members, and without
    /// recursion.
    pub fn new(alloc: Global, p: &Typed) -> Result<Layouts, AllocError>
        ensures { IfOk result (λ ls. AreLayoutsOf p.now.types ls) }
    {
        let found = find(alloc, p.types.as_slice())?;
        Ok(Layouts { found })
    }

    /// The answer of `layout`, which is looked up where the type has a layout.
    pub fn layout(&self, p: &Typed, t: u32) -> Result<Layout, LayoutFault>
        requires { AreLayoutsOf p.now.types self.now }
        ensures { IsLayout (extent p.now.types t) result }
    {
        if let Some(Some(l)) = self.found.get(t as usize) {
            Ok(*l)
        } else {
            layout(p, t)
        }
    }
}
