//! The rules on operands that look at no size (C11 6.5.2.2 to 6.5.4, 6.5.15, 6.5.16.1, 6.8.4.1).

ghost use Rattle.std.specs.Prelude.{◌≡◌, ◌<◌, map, slice_get, IfOk};
ghost use Rattle.c_tree.specs.Scopes.{State, type_extent};
ghost use Rattle.cap_layout.specs.Answers.{IsLayout};
ghost use Rattle.c_tree.specs.Conversions.{assigned};
ghost use Rattle.c_tree.specs.Libraries.{services};
ghost use Rattle.c_tree.specs.Types.{Pointer};
ghost use Rattle.c_tree.specs.Views.{tys};
ghost use Rattle.c_tree.specs.Expressions.{unary_on, cast, assign, condition, conditional, call, library_call, sized};
ghost use Rattle.c_tree.specs.Expressions.{may_be_given, all_complete, is_callable};
ghost use Rattle.c_expressions.specs.Nodes.{IsWhole, type_in, type_count, term_count};
ghost use Rattle.c_operators.specs.Called.{AreThere};
ghost use Rattle.c_elaborator.specs.Work.{Shows};
ghost use Rattle.c_elaborator.specs.Answers.{Answers, quietly, OperandThere, IsOperand, TermThere, IsTerm, operand_in};

use crate::work::Work;
use c_expressions::{Class, Operand};
use c_tree::UnaryOp;
use cap_layout::{Layout, LayoutFault};
use ck_base::{INCOMPLETE_TYPE, NoMemory, Pos, Refusal};

impl Work<'_> {
    /// `+`, `-`, `~` and `!` (C11 6.5.3.3).
    pub fn unary_on(&mut self, op: UnaryOp, a: Operand, pos: Pos) -> Result<Operand, Refusal>
        requires whole { IsWhole self.old.nodes }
        requires operand { OperandThere self.old a }
        ensures { Answers quietly self.old self.new
            (unary_on op (operand_in self.old a) pos) OperandThere IsOperand result }
    {
        c_operators::unary_on(&mut self.nodes, op, a, pos)
    }

    /// A cast (C11 6.5.4).
    pub fn cast(&mut self, of: u32, a: Operand, pos: Pos) -> Result<Operand, Refusal>
        requires whole { IsWhole self.old.nodes }
        requires of { of < type_count self.old.nodes }
        requires operand { OperandThere self.old a }
        ensures { Answers quietly self.old self.new
            (cast (type_in self.old.nodes of) (operand_in self.old a) pos) OperandThere IsOperand result }
    {
        c_operators::cast(&mut self.nodes, of, a, pos)
    }

    /// A simple assignment (C11 6.5.16.1).
    pub fn assign(&mut self, a: Operand, b: Operand, pos: Pos) -> Result<Operand, Refusal>
        requires whole { IsWhole self.old.nodes }
        requires left { OperandThere self.old a }
        requires right { OperandThere self.old b }
        ensures { Answers quietly self.old self.new
            (assign (operand_in self.old a) (operand_in self.old b) pos) OperandThere IsOperand result }
    {
        c_operators::assign(&mut self.nodes, a, b, pos)
    }

    /// A value as by assignment to a type (C11 6.5.16.1).
    pub fn assigned(&mut self, of: u32, x: Operand) -> Result<u32, Refusal>
        requires whole { IsWhole self.old.nodes }
        requires of { of < type_count self.old.nodes }
        requires operand { OperandThere self.old x }
        ensures { Answers quietly self.old self.new
            (assigned (type_in self.old.nodes of) (operand_in self.old x)) TermThere IsTerm result }
    {
        self.nodes.assigned(of, x)
    }

    /// A condition (C11 6.8.4.1p1).
    pub fn condition(&self, a: Operand) -> Result<u32, Refusal>
        requires whole { IsWhole self.now.nodes }
        requires operand { OperandThere self.now a }
        ensures { Answers quietly self.now self.now (condition (operand_in self.now a)) TermThere IsTerm result }
    {
        self.nodes.condition(a)
    }

    /// The conditional operator (C11 6.5.15).
    pub fn conditional(
        &mut self,
        a: Operand,
        b: Operand,
        c: Operand,
        pos: Pos,
    ) -> Result<Operand, Refusal>
        requires whole { IsWhole self.old.nodes }
        requires condition { OperandThere self.old a }
        requires second { OperandThere self.old b }
        requires third { OperandThere self.old c }
        ensures { Answers quietly self.old self.new
            (conditional (operand_in self.old a) (operand_in self.old b) (operand_in self.old c) pos) OperandThere
            IsOperand result }
    {
        c_operators::conditional(&mut self.nodes, a, b, c, pos)
    }

    // Whether a function may give a value of the type.
    fn may_be_given(&self, of: u32) -> bool
        requires whole { IsWhole self.now.nodes }
        requires there { of < type_count self.now.nodes }
        ensures { (s : State) → Shows self.now s → result ≡ may_be_given s (type_in self.now.nodes of) }
    {
        let void = self.nodes.is_bare_void(of);
        let complete = self.nodes.scopes.is_complete(&self.nodes.p, of);
        void || complete
    }

    fn all_complete(&self, params: &[u32]) -> bool
        ensures { (s : State) → Shows self.now s →
            result ≡ all_complete s (tys (map (type_in self.now.nodes) params.now)) }
    {
        for of in params {
            if !self.nodes.scopes.is_complete(&self.nodes.p, *of) {
                return false;
            }
        }
        true
    }

    // The same of what a function gives and takes.
    fn is_complete_function(&self, of: u32) -> Result<bool, NoMemory>
        requires whole { IsWhole self.now.nodes }
        requires there { of < type_count self.now.nodes }
        ensures { IfOk result (λ b. (s : State) → Shows self.now s →
            b ≡ is_callable s (Pointer (type_in self.now.nodes of))) }
    {
        match self.nodes.class(of) {
            Class::Function(gives) => {
                let params = self.nodes.params(of)?;
                let given = self.may_be_given(gives);
                let taken = self.all_complete(params.as_slice());
                Ok(given && taken)
            }
            _ => Ok(true),
        }
    }

    fn is_callable(&self, of: u32) -> Result<bool, NoMemory>
        requires whole { IsWhole self.now.nodes }
        requires there { of < type_count self.now.nodes }
        ensures { IfOk result (λ b. (s : State) → Shows self.now s → b ≡ is_callable s (type_in self.now.nodes of)) }
    {
        match self.nodes.target(of) {
            None => Ok(true),
            Some(function) => self.is_complete_function(function),
        }
    }

    /// The call of a value (C11 6.5.2.2): 132 where it gives or takes what is not complete, 133 and 136 of the
    /// arguments.
    pub fn call(&mut self, f: Operand, xs: &[Operand], pos: Pos) -> Result<Operand, Refusal>
        requires whole { IsWhole self.old.nodes }
        requires called { OperandThere self.old f }
        requires operands { AreThere (term_count self.old.nodes) xs.now }
        ensures { Answers quietly self.old self.new
            (call (operand_in self.old f) (map (operand_in self.old) xs.now) pos) OperandThere IsOperand result }
    {
        let callable = self.is_callable(self.nodes.of(f.node))?;
        if !callable {
            return Err(Refusal::Code(INCOMPLETE_TYPE, f.first));
        }
        c_operators::call(&mut self.nodes, f, xs, pos)
    }

    /// The call of a library function or intrinsic, by its number.
    pub fn library_call(
        &mut self,
        service: u8,
        xs: &[Operand],
        pos: Pos,
        first: Pos,
    ) -> Result<Operand, Refusal>
        requires whole { IsWhole self.old.nodes }
        requires operands { AreThere (term_count self.old.nodes) xs.now }
        ensures { Answers quietly self.old self.new
            (library_call (slice_get services service) service (map (operand_in self.old) xs.now) pos first)
            OperandThere IsOperand result }
    {
        c_operators::library_call(&mut self.nodes, service, xs, pos, first)
    }

    fn measured(&self, of: u32) -> Result<Layout, LayoutFault>
        ensures { (s : State) → Shows self.now s → IsLayout (type_extent s.tags (type_in self.now.nodes of)) result }
    {
        self.nodes.scopes.layout(&self.nodes.p, of)
    }

    /// The size of a type (C11 6.5.3.4); 0 over the limit, where the type is refused as it is formed.
    pub fn sized(&mut self, of: u32, pos: Pos) -> Result<Operand, Refusal>
        requires whole { IsWhole self.old.nodes }
        ensures { Answers quietly self.old self.new
            (sized (type_in self.old.nodes of) pos) OperandThere IsOperand result }
    {
        let measured = self.measured(of);
        match measured {
            Err(LayoutFault::Incomplete) => Err(Refusal::Code(INCOMPLETE_TYPE, pos)),
            Err(LayoutFault::TooLarge) => c_operators::size_constant(&mut self.nodes, 0, pos),
            Ok(layout) => c_operators::size_constant(&mut self.nodes, layout.size, pos),
        }
    }
}
