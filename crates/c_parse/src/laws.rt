//! What holds of the grammar and of its readings.

ghost use Rattle.std.specs.Prelude.{◌≡◌, ℕ, suc, ◌≤◌, ◌⊎◌, List, Some};
ghost use Rattle.ck_base.specs.declared.positions.Pos.{Pos};
ghost use Rattle.c_tree.specs.declared.syntax.Tree.{Tree};
ghost use Rattle.c_parse.specs.Parsed.{IsTreeOf, IsRefused};
ghost use Rattle.ck_base.specs.Tokens.{Lexeme};
ghost use Rattle.c_tree.specs.Syntax.{Syn, height};
ghost use Rattle.c_tree.specs.Parses.{DerivesFile};
ghost use Rattle.c_externals.specs.Statements.{read_file};

use c_lex::one_reading;
use c_tree::Tree;
use ck_base::Pos;

/// The tokens of a file have at most one tree (C11 6.9).
pub fn one_tree()
    ensures { (tokens : List Lexeme) (x y : Syn) → DerivesFile tokens x → DerivesFile tokens y → x ≡ y }
{}

/// Reading from left to right finds the tree of a file where it has one of at most so many levels, and finds nothing
/// else.
pub fn readings_are_trees()
    ensures sound { (h : ℕ) (tokens : List Lexeme) (x : Syn) → read_file h tokens ≡ Some x →
        DerivesFile tokens x × (height x ≤ suc h) }
    ensures complete { (h : ℕ) (tokens : List Lexeme) (x : Syn) → DerivesFile tokens x → height x ≤ suc h →
        read_file h tokens ≡ Some x }
{}

/// What `parse` answers is the only answer to a file, up to the numbers of the nodes and to the place of 120: a file
/// has at most one tree or is refused by one code, and never both.
pub fn one_answer()
    ensures tree { (file : List ℕ) (a b : Tree) (s : IsTreeOf file a) (t : IsTreeOf file b) →
        s.parses.syntax ≡ t.parses.syntax }
    ensures apart { (file : List ℕ) (tree : Tree) (code : ℕ) (place : Pos) → IsTreeOf file tree →
        IsRefused file code place → ⊥ }
    ensures refusal { (file : List ℕ) (code other : ℕ) (place elsewhere : Pos) → IsRefused file code place →
        IsRefused file other elsewhere →
        (code ≡ other) × ((code ≡ 120) ⊎ (place ≡ elsewhere)) }
{
    one_reading();
}
