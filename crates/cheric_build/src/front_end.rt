//! The front end: from the bytes of a C file to its typed program.
ghost use Rattle.std.specs.Prelude.{IfOk, IfErr};
ghost use Rattle.c_tree.specs.Typing.{Sound};
ghost use Rattle.cheric_build.specs.Front.{IsTyped, IsBroken};

use c_elab::elab;
use c_lex::Tokens;
use c_parse::parse;
use c_tree::Typed;
use ck_base::{FILE_TOO_LONG, Pos, Refusal};
use std::alloc::Global;

/// The start of a file.
const START: Pos = Pos { line: 1, col: 1 };

/// The most bytes of a file.
const MOST_BYTES: usize = 4_194_304;

/// The typed program of a C file (C11 6.4 to 6.9), or the first rule that the file breaks: 143 at its start, where it
/// has more than 4,194,304 bytes; 100 to 104, as its tokens are; 121 and 120, as its brackets and its tree are; 130 to
/// 134, 136 and 140, as its types are. The room of its objects and its weight are not looked at.
pub fn front(alloc: Global, file: &[u8]) -> Result<Typed, Refusal>
    ensures typed { IfOk result (IsTyped file.now) }
    ensures sound { IfOk result Sound }
    ensures refused { IfErr result (IsBroken file.now) }
{
    if file.len() > MOST_BYTES {
        return Err(Refusal::Code(FILE_TOO_LONG, START));
    }
    let tree = parse(alloc, Tokens::new(file))?;
    elab(alloc, &tree, file)
}
