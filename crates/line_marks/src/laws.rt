//! A law of marked places.

ghost use Rattle.std.specs.Prelude.{◌≡◌, ℕ, List, []};
ghost use Rattle.ck_base.specs.declared.positions.Pos.{Pos};
ghost use Rattle.line_marks.specs.Marks.{marked};
ghost use Rattle.line_marks.specs.Plain.{LacksDirectives};

/// A file without directive lines has the positions of its bytes, and so has the empty file.
pub fn unmarked()
    ensures file { (file : List ℕ) (pos : Pos) →
        LacksDirectives file → marked file pos ≡ record { name = []; line = pos.line; col = pos.col } }
    ensures empty { LacksDirectives [] }
{}
