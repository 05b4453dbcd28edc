//! Parts of phrases in which no phrase stands: tags, string literals and qualifiers.

ghost use Rattle.std.specs.Prelude.{◌≡◌, ℕ, suc, ◌+◌, ◌<◌, ◌≤◌, ◌^◌, false, List, [], ◌∷◌, length, Option, Some, None};
ghost use Rattle.std.specs.Prelude.{MatchResult, IfOk, IfSome, IfNone, OnErr, Err};
ghost use Rattle.ck_base.specs.Tokens.{Lexeme};
ghost use Rattle.c_tree.specs.Syntax.{Syn, Syns, node, nil, more, one, joined};
ghost use Rattle.c_tree.specs.Symbols.{symbol};
ghost use Rattle.c_phrases.specs.Reading.{starts, qualifier_of as qualifier_table, pieces as pieces_from};
ghost use Rattle.c_phrases.specs.Reading.{qualifiers as qualifiers_from, tag as tag_from, past as past_of};
ghost use Rattle.c_tree.specs.declared.syntax.NodeKind.TheVariants.{Specifier};
ghost use Rattle.c_phrases.specs.Runs.{text_from, qualifiers_node};
ghost use Rattle.c_phrases.specs.Got.{rest_of, IsRoomy, Owed, Reads, ReadsParts, Means, MeansOption, Holds, Describes};

use crate::cursor::{Cursor, Mark, Part, Parts, Root, Stop};
use crate::items::{Item, Place};
use crate::tables::is_qualifier;
use c_tree::{NodeKind, SpecifierWord, Symbol};

/// A tag, if there is one.
pub(crate) fn tag<'a>(cursor: &mut Cursor<'a>) -> Result<Parts, Stop>
    requires room { IsRoomy cursor.old }
    ensures size { IfOk result (λ _. Owed cursor.old cursor.new 0) }
    ensures low { IfOk result (λ parts. parts.height ≤ 0) }
    ensures tree { ReadsParts cursor.old cursor.new (Some (tag_from (rest_of cursor.old))) result }
{
    match cursor.take_if(Mark::Word) {
        Some(name) => {
            let part = cursor.leaf(NodeKind::Tag, &name)?;
            cursor.only(part)
        }
        None => Ok(cursor.no_parts()),
    }
}

/// String literals as far as they go.
pub(crate) fn pieces<'a>(cursor: &mut Cursor<'a>) -> Result<Parts, Stop>
    requires room { IsRoomy cursor.old }
    ensures size { IfOk result (λ _. Owed cursor.old cursor.new 0) }
    ensures low { IfOk result (λ parts. parts.height ≤ 1) }
    ensures tree { ReadsParts cursor.old cursor.new (Some (pieces_from (rest_of cursor.old))) result }
{
    let mut parts = cursor.no_parts();
    while let Some(item) = cursor.take_if(Mark::Text) {
        let part = cursor.leaf(NodeKind::Text, &item)?;
        parts.push(part)?;
    }
    Ok(parts)
}

/// The qualifier that a token is, if it is one.
fn qualifier_of(symbol: Symbol) -> Option<SpecifierWord>
    ensures { result ≡ qualifier_table symbol }
{
    match symbol {
        Symbol::Specifier(word) if is_qualifier(word) => Some(word),
        _ => None,
    }
}

/// String literals behind the first, with it.
pub(crate) fn text<'a>(
    cursor: &mut Cursor<'a>,
    item: &Item<'a>,
    below: u32,
) -> Result<Part<'a>, Stop>
    requires room { IsRoomy cursor.old }
    requires height { below ≤ 200 }
    ensures size { IfOk result (λ _. Owed cursor.old cursor.new 1) }
    ensures low { IfOk result (λ p. p.height ≤ below + 1) }
    ensures tree { Reads cursor.old cursor.new (text_from (suc below) item.now (rest_of cursor.old)) result }
{
    let parts = pieces(cursor)?;
    if parts.height > below {
        return Err(Stop::NoTree);
    }
    cursor.join(NodeKind::Text, item, item.place(), parts)
}

/// Takes the first token, if it is a qualifier.
fn take_qualifier<'a>(cursor: &mut Cursor<'a>) -> Option<(SpecifierWord, Item<'a>)>
    ensures nodes { cursor.new.nodes.items ≡ cursor.old.nodes.items }
    ensures size { IfSome result (λ q. length (rest_of cursor.old) ≡ length (rest_of cursor.new) + 1) }
    ensures left { IfNone result (rest_of cursor.new ≡ rest_of cursor.old) }
    ensures other { IfNone result (qualifiers_from (rest_of cursor.old) ≡ (nil, rest_of cursor.old)) }
    ensures found { IfSome result (λ q. qualifiers_from (rest_of cursor.old)
        ≡ (
          more (node (Specifier q.0) q.1 nil) (qualifiers_from (rest_of cursor.new)).0,
          (qualifiers_from (rest_of cursor.new)).1,
        )) }
{
    let Some(item) = cursor.first() else {
        return None;
    };
    match qualifier_of(item.symbol()) {
        Some(word) => {
            cursor.advance();
            Some((word, item))
        }
        None => None,
    }
}

/// The qualifiers behind a `*`, as far as they go.
pub(crate) fn qualifiers<'a>(cursor: &mut Cursor<'a>, star: &Item<'a>) -> Result<Part<'a>, Stop>
    requires room { IsRoomy cursor.old }
    ensures size { IfOk result (λ _. Owed cursor.old cursor.new 1) }
    ensures low { IfOk result (λ p. p.height ≤ 0) }
    ensures tree { Reads cursor.old cursor.new (qualifiers_node star.now (rest_of cursor.old)) result }
{
    let mut parts = cursor.no_parts();
    while let Some((word, item)) = take_qualifier(cursor) {
        let part = cursor.leaf(NodeKind::Specifier(word), &item)?;
        parts.push(part)?;
    }
    cursor.join(NodeKind::Qualifiers, star, star.place(), parts)
}
