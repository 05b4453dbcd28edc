//! Each C file is accepted or refused.
//!
//! Promise: a file is a typed program, or the first rule that it breaks refuses it, and never both (`each_file`), and
//! in one way (`one_file`). So the definitions leave no file out, whatever a parser or an elaborator does.
//! Definitions (`specs/`): `Each`; `Accepted` of `accepted_files`.
//! Main lemma (`proofs/`): `Deciding`, rule by rule; what typing gives can be written down, by `written_programs`.
#![tactic(auto)]

ghost use Rattle.std.specs.Prelude.{ℕ, List};
ghost use Rattle.accepted_files.specs.Accepted.{OneFile};
ghost use Rattle.each_file.specs.Each.{EachFile};

use c_lex::token_count;
use c_parse::readings_are_trees;
use typing_laws::codes::typing_codes;

/// A file is at most one program, whatever the numbers of its nodes and types, or it is refused by one code, at one
/// position but for 120, and never both.
pub fn one_file()
    ensures { (bytes : List ℕ) → OneFile bytes }
{}

/// A file is accepted as some program or refused by some code, and not both. Typing refuses by 130 to 136 or 140 alone.
pub fn each_file(file: &[u8])
    ensures { EachFile file.now }
{
    one_file();
    readings_are_trees();
    typing_codes();
    if file.len() <= 4_194_304 {
        let _ = token_count(file);
    }
}
