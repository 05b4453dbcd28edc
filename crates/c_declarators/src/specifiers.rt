//! What specifiers are (C11 6.7.1 to 6.7.3).

ghost use Rattle.std.specs.Prelude.{◌≡◌, ◌<◌, map, All, IfOk};
ghost use Rattle.ck_base.specs.Tokens.{Lexeme};
ghost use Rattle.c_tree.specs.Syntax.{Syns, StandAt};
ghost use Rattle.c_types.specs.Declares.{storage_of as meant_storage};
ghost use Rattle.c_expressions.specs.Nodes.{IsWhole, HasType, HasMaybe, type_in, type_count};
ghost use Rattle.c_elaborator.specs.Answers.{Answers, quietly};
ghost use Rattle.c_declarators.specs.Parts.{SpecifiedThere, IsSpecified, in_any};
ghost use Rattle.c_declarators.specs.Words.{word_type};
ghost use Rattle.c_declarators.specs.Steps.{storage_of, specified_type, with_const, specified_by, specified};

use crate::parts::Specified;
use crate::words::Words;
use c_elaborator::Work;
use c_expressions::Nodes;
use c_types::Storage;
use ck_base::{MISFIT, NoMemory, Pos, Refusal};

// The storage that the words stand for.
fn storage_of(words: Words) -> Storage
    ensures { meant_storage result ≡ storage_of words }
{
    if words.typedefs > 0 {
        return Storage::Typedef;
    }
    if words.statics > 0 {
        return Storage::Static;
    }
    if words.externs > 0 {
        return Storage::Extern;
    }
    Storage::Plain
}

// The number of the type that the words name.
fn word_number(nodes: &mut Nodes<'_>, words: Words) -> Result<Option<u32>, NoMemory>
    requires { IsWhole nodes.old }
    ensures { IfOk result (λ k. HasMaybe nodes.old nodes.new k (word_type words)) }
{
    match words.word_type() {
        None => Ok(None),
        Some(c) => {
            let k = nodes.type_number(c)?;
            Ok(Some(k))
        }
    }
}

// The type that the words, and the types of the others among the specifiers, come to.
fn type_of(nodes: &mut Nodes<'_>, words: Words, named: &[u32]) -> Result<Option<u32>, NoMemory>
    requires whole { IsWhole nodes.old }
    requires there { All (λ k. k < type_count nodes.old) named.now }
    ensures { IfOk result (λ k. HasMaybe nodes.old nodes.new k
        (specified_type words (map (type_in nodes.old) named.now))) }
{
    match named {
        [] => word_number(nodes, words),
        [one] => {
            if words.type_words() == 0 {
                Ok(Some(*one))
            } else {
                Ok(None)
            }
        }
        _ => Ok(None),
    }
}

// The type with the qualifier, if `const` stands there.
fn with_const(nodes: &mut Nodes<'_>, words: Words, t: u32) -> Result<u32, NoMemory>
    requires whole { IsWhole nodes.old }
    requires there { t < type_count nodes.old }
    ensures { IfOk result (λ k. HasType nodes.old nodes.new k (with_const words (type_in nodes.old t))) }
{
    if words.consts > 0 {
        return nodes.qualified(t);
    }
    Ok(t)
}

// Specifiers, by their words.
fn specified_by(
    work: &mut Work<'_>,
    first: Pos,
    words: Words,
    named: &[u32],
) -> Result<Specified, Refusal>
    requires whole { IsWhole work.old.nodes }
    requires there { All (λ k. k < type_count work.old.nodes) named.now }
    ensures { (t : Lexeme) → t.pos ≡ first →
        Answers quietly work.old work.new (specified_by words t (map (type_in work.old.nodes) named.now))
        SpecifiedThere (in_any IsSpecified) result }
{
    if words.storage_words() > 1 {
        return Err(Refusal::Code(MISFIT, first));
    }
    match type_of(&mut work.nodes, words, named)? {
        None => Err(Refusal::Code(MISFIT, first)),
        Some(bare) => {
            let of = with_const(&mut work.nodes, words, bare)?;
            Ok(Specified {
                first,
                stored: words.storage_words() > u64::from(words.registers),
                storage: storage_of(words),
                of,
            })
        }
    }
}

/// Specifiers, whose first byte stands at the place, and the types of the typedef names, structs, unions and
/// enumerations among them in their order. 133 for two words for storage, and where they are no type (C11 6.7.1p2,
/// 6.7.2p2).
pub fn specified(
    work: &mut Work<'_>,
    first: Pos,
    parts: &[u32],
    named: &[u32],
) -> Result<Specified, Refusal>
    requires whole { IsWhole work.old.nodes }
    requires there { All (λ k. k < type_count work.old.nodes) named.now }
    ensures { (t : Lexeme) (xs : Syns) → t.pos ≡ first → StandAt work.old.tree.now.nodes parts.now xs →
        Answers quietly work.old work.new (specified t xs (map (type_in work.old.nodes) named.now)) SpecifiedThere
        (in_any IsSpecified) result }
{
    let words = Words::of(work.tree, parts)?;
    specified_by(work, first, words, named)
}
