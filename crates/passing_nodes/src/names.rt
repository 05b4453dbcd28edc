//! The names of calls.

ghost use Rattle.std.specs.Prelude.{◌≡◌, true, if◌then◌else◌, Some, None, IfOk, OnOk};
ghost use Rattle.c_tree.specs.Passed.{same_place};
ghost use Rattle.passing_nodes.specs.Places.{is_before, IsAscending, IsBehind, first_name};

use ck_base::{NoMemory, Pos, Span};
use indexmap::IndexMap;
use std::alloc::Global;

/// The name of a call, and its place.
#[derive(Clone, Copy)]
pub struct Name {
    pub pos: Pos,
    pub span: Span,
}

/// The name of the call at each place.
#[derive(Drop)]
pub struct Names {
    /// Those that came in the order of their places.
    pub ascending: Vec<Name>,
    /// The others, by line and column.
    pub others: IndexMap<(u32, u32), Span>,
    pub ghost ordered: { IsAscending ascending.items },
}

// Whether one place stands before another.
fn is_before(a: Pos, b: Pos) -> bool
    ensures { result ≡ is_before a b }
{
    if a.line == b.line {
        a.col < b.col
    } else {
        a.line < b.line
    }
}

impl Name {
    // Its bytes, if it stands at a place.
    fn at(self, pos: Pos) -> Option<Span>
        ensures { result ≡ (if same_place self.pos pos then Some self.span else None) }
    {
        if self.pos.line == pos.line && self.pos.col == pos.col {
            Some(self.span)
        } else {
            None
        }
    }
}

// Whether a place stands behind those of all names.
fn is_behind(names: &[Name], pos: Pos) -> bool
    requires { IsAscending names.now }
    ensures { result ≡ true → IsBehind names.now pos }
{
    match names.last().copied() {
        None => true,
        Some(name) => is_before(name.pos, pos),
    }
}

// The first name at a place.
fn first_at(names: &[Name], pos: Pos) -> Option<Span>
    requires { IsAscending names.now }
    ensures { result ≡ first_name names.now pos }
{
    let place = names.partition_point(|name| is_before(name.pos, pos));
    match names.get(place).copied() {
        None => None,
        Some(name) => name.at(pos),
    }
}

impl Names {
    ghost use Rattle.passing_nodes.specs.Named.{other_at, known_at, name_in, AddsName};

    /// No names, with room for so many: `NoMemory` where memory ends.
    pub fn with_capacity(alloc: Global, count: usize) -> Result<Self, NoMemory>
        ensures { IfOk result (λ m. (p : Pos) → known_at m p ≡ None) }
    {
        Ok(Names {
            ascending: Vec::with_capacity(alloc, count)?,
            others: IndexMap::new(alloc),
        })
    }

    // The name at a place among those that did not come in order.
    fn other(&self, pos: Pos) -> Option<Span>
        ensures { result ≡ other_at self.now pos }
    {
        if self.others.is_empty() {
            return None;
        }
        self.others.get(&(pos.line, pos.col)).copied()
    }

    // The name that is known at a place.
    fn known(&self, pos: Pos) -> Option<Span>
        ensures { result ≡ known_at self.now pos }
    {
        match first_at(self.ascending.as_slice(), pos) {
            None => self.other(pos),
            found => found,
        }
    }

    /// The name of the call at a place.
    pub fn name(&self, pos: Pos) -> Span
        ensures { result ≡ name_in self.now pos }
    {
        match self.known(pos) {
            Some(name) => name,
            None => Span { start: 0, end: 0 },
        }
    }

    /// One name more, where the first name at a place counts: `NoMemory` where memory ends.
    pub fn add(&mut self, pos: Pos, span: Span) -> Result<(), NoMemory>
        ensures { OnOk result (AddsName self.old self.new pos span) }
    {
        if is_behind(self.ascending.as_slice(), pos) && self.other(pos).is_none() {
            self.ascending.push(Name { pos, span })?;
            return Ok(());
        }
        if self.known(pos).is_none() {
            self.others.insert((pos.line, pos.col), span)?;
        }
        Ok(())
    }
}
