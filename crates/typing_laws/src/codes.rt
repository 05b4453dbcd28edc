//! With which codes typing refuses a file.
//!
//! Promise: the syntax of a file, which the grammar derives, is refused by a rule on names, types, values or sizes
//! alone, so the definitions of typing cover each form that is derived (`typing_codes`).
//! Definitions (`specs/`): `Codes`.
//! Main lemmas (`proofs/`): `Stepping`, how a step of typing fails; `Expressions`, `Declarators`, `Declarations` and
//! `Statements` along typing; `Derived` and `Files` along the grammar.
ghost use Rattle.std.specs.Prelude.{List, ℕ};
ghost use Rattle.ck_base.specs.declared.positions.Pos.{Pos};
ghost use Rattle.ck_base.specs.Tokens.{Lexeme};
ghost use Rattle.c_tree.specs.Syntax.{Syn};
ghost use Rattle.c_tree.specs.Parses.{DerivesFile};
ghost use Rattle.c_tree.specs.Typing.{RefusesSyntax};
ghost use Rattle.typing_laws.specs.Codes.{IsTypingCode};

/// What refuses the syntax of a file is a rule of typing: no form that the grammar derives is left out.
pub fn typing_codes()
    ensures coded { (tokens : List Lexeme) (x : Syn) (code : ℕ) (place : Pos) → DerivesFile tokens x →
        RefusesSyntax x code place → IsTypingCode code }
{}
