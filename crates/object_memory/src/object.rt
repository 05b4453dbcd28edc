//! One object: what it is, its bytes, and a value or none for each granule of 16 bytes.

ghost use Rattle.std.specs.Prelude.{◌≡◌, ◌<◌, ◌≤◌, ◌+◌, ◌-◌, ◌*◌, ◌/◌, ◌^◌, length, replicate, None, IfOk, option_map};
ghost use Rattle.std.specs.Prelude.{slice_get, slice_set};
ghost use Rattle.obj_mem.specs.Values.{value_of};
ghost use Rattle.obj_mem.specs.Objects.{Active, cell_or, put_at, value_at, with_value};
ghost use Rattle.object_memory.specs.Answers.{value_seen, cells_of, plain_cell, plain_cells};
ghost use Rattle.object_memory.specs.Views.{cell_of, life_of, filled, put_over};

use crate::bytes::Bytes;
use ck_base::NoMemory;
use mean_work::{hold, release};
use obj_mem::Value;
use std::alloc::Global;
use std::marker::Model;

/// A byte: its number, one that was not written, or one of a stored pointer.
#[derive(Clone, Copy, Drop)]
pub(crate) enum Cell {
    Byte(u8),
    Unwritten,
    PartOf(Value, u8),
}

/// Whether an object may be accessed.
#[derive(Clone, Copy)]
pub(crate) enum Life {
    Active,
    Inactive,
    Returned,
}

/// An object of `len` bytes.
#[derive(Drop)]
pub(crate) struct Object {
    len: u64,
    owned: u64,
    life: Life,
    base: u64,
    /// The owned bytes.
    cells: Vec<Cell>,
    /// The tagged value that each granule holds. Where it holds one its cells don't count.
    values: Vec<Option<Value>>,
}

/// A byte, or one that was not written.
fn plain(byte: Option<u8>) -> Cell
    ensures { cell_of result ≡ plain_cell byte }
{
    match byte {
        None => Cell::Unwritten,
        Some(b) => Cell::Byte(b),
    }
}

/// Each item is the same from here on.
#[tactic(auto, using(crate::proofs::Puts::fill_step, crate::proofs::Puts::fill_all))]
fn fill<T: Copy>(items: &mut Vec<T>, each: T)
    ensures { items.new.items ≡ replicate (length items.old.items) each }
{
    for k in 0..items.len() {
        items[k] = each;
    }
}

impl Model for Object {
    ghost use Rattle.std.specs.Prelude.{◌≡◌, ◌+◌, ◌/◌, map, length, option_map};
    ghost use Rattle.obj_mem.specs.Values.{value_of};
    ghost use Rattle.object_memory.specs.Views.{ObjectView, cell_of, life_of};

    ghost Value = { ObjectView };

    ghost view = { λ o. record {
      shape = record { length = o.len; owned = o.owned; life = life_of o.life; base = o.base };
      content = record { cells = map cell_of o.cells.items; values = map (option_map value_of) o.values.items };
    } };

    ghost invariant = { λ o. (length o.cells.items ≡ o.owned) × (length o.values.items ≡ (o.owned + 15) / 16) };
}

impl Object {
    /// An active object at a base, each of whose owned bytes is the same.
    #[tactic(auto, using(crate::proofs::Puts::changes))]
    pub(crate) fn new(
        alloc: Global,
        len: u64,
        owned: u64,
        base: u64,
        each: Cell,
    ) -> Result<Object, NoMemory>
        requires { owned < 2 ^ 63 }
        ensures { IfOk result (λ o. o ≡ record {
          shape = record { length = len; owned = owned; life = Active; base = base };
          content =
              filled (cell_of each) owned;
        }) }
    {
        let cells = vec![in alloc; each; owned as usize]?;
        let values = vec![in alloc; None; (owned as usize + 15) / 16]?;
        Ok(Object {
            len,
            owned,
            life: Life::Active,
            base,
            cells,
            values,
        })
    }

    pub(crate) fn base(&self) -> u64
        ensures { result ≡ self.now.shape.base }
    {
        self.base
    }

    pub(crate) fn length(&self) -> u64
        ensures { result ≡ self.now.shape.length }
    {
        self.len
    }

    pub(crate) fn owned(&self) -> u64
        ensures { result ≡ self.now.shape.owned }
    {
        self.owned
    }

    pub(crate) fn life(&self) -> Life
        ensures { life_of result ≡ self.now.shape.life }
    {
        self.life
    }

    pub(crate) fn set_life(&mut self, life: Life)
        ensures { self.new ≡ record self.old { shape = record self.old.shape { life = life_of life } } }
    {
        self.life = life;
    }

    /// Each byte is the same from here on, and no value stands.
    #[tactic(auto, using(crate::proofs::Puts::changes))]
    fn fill(&mut self, each: Cell)
        ensures { self.new ≡ record self.old { content = filled (cell_of each) self.old.shape.owned } }
    {
        fill(&mut self.cells, each);
        fill(&mut self.values, None);
    }

    /// It is active, and each byte is the same from here on.
    pub(crate) fn begin(&mut self, each: Cell)
        ensures { self.new ≡ record {
          shape = record self.old.shape { life = Active };
          content = filled (cell_of each) self.old.shape.owned;
        } }
    {
        self.set_life(Life::Active);
        self.fill(each);
    }

    /// The value that the granule of a place holds.
    pub(crate) fn value(&self, at: u64) -> Option<Value>
        ensures { value_seen result ≡ value_at self.now.content (at / 16) }
    {
        match self.values.get((at / 16) as usize) {
            None => None,
            Some(v) => *v,
        }
    }

    /// What stands at a place where no value is held.
    pub(crate) fn cell(&self, at: u64) -> Cell
        ensures { cell_of result ≡ cell_or (slice_get self.now.content.cells at) }
    {
        match self.cells.get(at as usize) {
            None => Cell::Unwritten,
            Some(c) => *c,
        }
    }

    /// The granule of a place holds a tagged value from here on.
    #[tactic(auto, using(crate::proofs::Puts::changes))]
    pub(crate) fn put_value(&mut self, at: u64, v: Value)
        ensures { self.new ≡ record self.old { content = with_value self.old.content at (value_of v) } }
    {
        hold(&mut self.values, at, v);
    }

    /// The granule of a place holds no value from here on.
    #[tactic(auto, using(crate::proofs::Puts::changes))]
    fn drop_value(&mut self, at: u64)
        ensures { self.new ≡ record self.old {
          content = record self.old.content
              { values = slice_set self.old.content.values (at / 16) None };
        } }
    {
        release(&mut self.values, at);
    }

    #[tactic(auto, using(crate::proofs::Puts::changes))]
    fn put_cell(&mut self, at: u128, cell: Cell)
        ensures { self.new ≡ record self.old {
          content = record self.old.content
              { cells = slice_set self.old.content.cells at (cell_of cell) };
        } }
    {
        if at >= self.cells.len() as u128 {
            return;
        }
        self.cells[at as usize] = cell;
    }

    /// Cells stand from a place on.
    #[tactic(auto, using(crate::proofs::Puts::put_more, crate::proofs::Puts::put_all))]
    fn put_cells(&mut self, at: u64, cells: &[Cell])
        requires { length cells.now ≤ 16 }
        ensures { self.new ≡ record self.old {
          content = record self.old.content
              { cells = put_at self.old.content.cells at (cells_of cells.now) };
        } }
    {
        for k in 0..cells.len() {
            self.put_cell(u128::from(at) + k as u128, cells[k]);
        }
    }

    /// Sixteen cells stand in the granule of a place from here on, and no value.
    fn open(&mut self, at: u64, parts: &[Cell; 16])
        ensures { self.new ≡ record self.old {
          content = record {
            cells = put_at self.old.content.cells (16 * (at / 16))
                (cells_of parts.now);
            values = slice_set self.old.content.values (at / 16) None;
          };
        } }
    {
        self.put_cells(at / 16 * 16, parts);
        self.drop_value(at);
    }

    /// These bytes stand from a place on.
    #[tactic(auto, using(crate::proofs::Puts::put_more, crate::proofs::Puts::put_all))]
    fn put_bytes(&mut self, at: u64, bytes: &Bytes)
        requires { bytes.now.count ≤ 16 }
        ensures { self.new ≡ record self.old {
          content = record self.old.content
              { cells = put_at self.old.content.cells at (plain_cells bytes.now) };
        } }
    {
        let items = &bytes.items[..bytes.count];
        for k in 0..items.len() {
            self.put_cell(u128::from(at) + k as u128, plain(items[k]));
        }
    }

    /// These bytes stand from a place on, and no value in its granule: the bytes of the one that it held do.
    pub(crate) fn write(&mut self, at: u64, held: &Option<[Cell; 16]>, bytes: &Bytes)
        requires { bytes.now.count ≤ 16 }
        ensures { self.new ≡ record self.old {
          content = put_over (option_map cells_of held.now) self.old.content at
              (plain_cells bytes.now);
        } }
    {
        if let Some(cells) = held {
            self.open(at, cells);
        }
        self.put_bytes(at, bytes);
    }
}
