//! Types that are made of others, by their numbers.

ghost use Rattle.std.specs.Prelude.{◌≡◌, ◌<◌, false, IfOk};
ghost use Rattle.c_tree.specs.Types.{Ty, Pointer, is_array, qualified, bare_elements, promoted, common};
ghost use Rattle.c_tree.specs.Types as types;
ghost use Rattle.c_node_facts.specs.Classes.{integer_type};
ghost use Rattle.c_expressions.specs.Rows.{rows_type, IsRows};
ghost use Rattle.c_expressions.specs.Nodes.{IsWhole, HasType, type_in, type_count};

use crate::nodes::Nodes;
use c_node_facts::{Class, Integer};
use c_tree::CType;
use ck_base::NoMemory;
use ck_int::IntKind;

/// A type as rows of rows of what is no array, and the lengths of the rows, the outermost first.
#[derive(Drop)]
struct Rows {
    of: u32,
    counts: Vec<u64>,
}

impl Nodes<'_> {
    /// The pointer type to a type (C11 6.7.6.1). Fails only for want of memory, as each of these.
    pub fn pointer_to(&mut self, t: u32) -> Result<u32, NoMemory>
        requires { IsWhole self.old }
        ensures { IfOk result (λ k. HasType self.old self.new k (Pointer (type_in self.old t))) }
    {
        self.type_number(CType::Pointer(t))
    }

    /// An integer type.
    pub fn integer(&mut self, of: Integer) -> Result<u32, NoMemory>
        requires { IsWhole self.old }
        ensures { IfOk result (λ k. HasType self.old self.new k (integer_type of)) }
    {
        self.type_number(match of {
            Integer::Int(kind, other) => CType::Int(kind, other),
            Integer::Cap(signed) => CType::Cap(signed),
        })
    }

    /// The type `void`.
    pub fn void(&mut self) -> Result<u32, NoMemory>
        requires { IsWhole self.old }
        ensures { IfOk result (λ k. HasType self.old self.new k types.Void) }
    {
        self.type_number(CType::Void)
    }

    /// The type `int`.
    pub fn int(&mut self) -> Result<u32, NoMemory>
        requires { IsWhole self.old }
        ensures { IfOk result (λ k. HasType self.old self.new k types.int) }
    {
        self.integer(Integer::Int(IntKind::I32, 0))
    }

    /// The type `long`.
    pub fn long(&mut self) -> Result<u32, NoMemory>
        requires { IsWhole self.old }
        ensures { IfOk result (λ k. HasType self.old self.new k types.long) }
    {
        self.integer(Integer::Int(IntKind::I64, 0))
    }

    /// The integer promotions (C11 6.3.1.1p2).
    pub fn promoted(&mut self, t: u32) -> Result<u32, NoMemory>
        requires whole { IsWhole self.old }
        requires there { t < type_count self.old }
        ensures { IfOk result (λ k. HasType self.old self.new k (promoted (type_in self.old t))) }
    {
        let class = self.class(t);
        self.integer(class.promoted())
    }

    /// The common type of the usual arithmetic conversions (C11 6.3.1.8).
    #[tactic(auto, unfolding(c_tree::specs::Types::common))]
    pub fn common(&mut self, s: u32, t: u32) -> Result<u32, NoMemory>
        requires whole { IsWhole self.old }
        requires first { s < type_count self.old }
        requires second { t < type_count self.old }
        ensures { IfOk result (λ k. HasType self.old self.new k (common (type_in self.old s) (type_in self.old t))) }
    {
        let left = self.class(s);
        let right = self.class(t);
        self.integer(left.promoted().common(right.promoted()))
    }

    // The rows that a type is made of.
    fn rows(&self, t: u32) -> Result<Rows, NoMemory>
        requires whole { IsWhole self.now }
        requires there { t < type_count self.now }
        ensures { IfOk result (λ r. IsRows self.now t r) }
    {
        let mut counts = Vec::new(self.alloc);
        let mut at = t;
        loop {
            match self.class(at) {
                Class::Array(of, count) => {
                    counts.push(count)?;
                    at = of;
                }
                Class::Void
                | Class::Int(_, _)
                | Class::Cap(_)
                | Class::Pointer(_)
                | Class::Tagged(_)
                | Class::Function(_)
                | Class::Const(_) => {
                    return Ok(Rows { of: at, counts });
                }
            }
        }
    }

    // Rows of rows of a type.
    fn in_rows(&mut self, t: u32, counts: &[u64]) -> Result<u32, NoMemory>
        requires whole { IsWhole self.old }
        requires there { t < type_count self.old }
        ensures { IfOk result (λ k. HasType self.old self.new k (rows_type counts.now (type_in self.old t))) }
    {
        let mut of = t;
        let mut left = counts.len();
        while left > 0 {
            left -= 1;
            of = self.type_number(CType::Array(of, counts[left]))?;
        }
        Ok(of)
    }

    // A type that is no array, with a qualifier.
    fn qualified_element(&mut self, t: u32) -> Result<u32, NoMemory>
        requires whole { IsWhole self.old }
        requires there { t < type_count self.old }
        requires no_array { is_array (type_in self.old t) ≡ false }
        ensures { IfOk result (λ k. HasType self.old self.new k (qualified (type_in self.old t))) }
    {
        match self.class(t) {
            Class::Function(_) => Ok(t),
            Class::Const(_) => Ok(t),
            Class::Void
            | Class::Int(_, _)
            | Class::Cap(_)
            | Class::Pointer(_)
            | Class::Array(_, _)
            | Class::Tagged(_) => self.type_number(CType::Const(t)),
        }
    }

    /// The type with a qualifier; that of an array is that of its elements (C11 6.7.3p9).
    pub fn qualified(&mut self, t: u32) -> Result<u32, NoMemory>
        requires whole { IsWhole self.old }
        requires there { t < type_count self.old }
        ensures { IfOk result (λ k. HasType self.old self.new k (qualified (type_in self.old t))) }
    {
        let rows = self.rows(t)?;
        let of = self.qualified_element(rows.of)?;
        self.in_rows(of, rows.counts.as_slice())
    }

    /// The type without a qualifier of its own or of its elements.
    pub fn bare_elements(&mut self, t: u32) -> Result<u32, NoMemory>
        requires whole { IsWhole self.old }
        requires there { t < type_count self.old }
        ensures { IfOk result (λ k. HasType self.old self.new k (bare_elements (type_in self.old t))) }
    {
        let rows = self.rows(t)?;
        let of = self.bare(rows.of);
        self.in_rows(of, rows.counts.as_slice())
    }
}
