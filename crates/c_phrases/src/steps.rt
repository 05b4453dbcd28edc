//! What is read, and the steps by which a production is.

ghost use Rattle.std.specs.Prelude.{◌≡◌, ◌+◌, max, [], ◌∷◌, ◌++◌, IfOk, IfErr};
ghost use Rattle.ck_base.specs.Tokens.{Lexeme};
ghost use Rattle.c_tree.specs.Syntax.{Syn, Syns, node, one, joined};
ghost use Rattle.c_tree.specs.Grammar.{is_typedef_word as is_typedef_word_of, is_typedef_node as is_typedef_node_of};
ghost use Rattle.c_tree.specs.Grammar.{names_type as names_type_of, is_agreed as is_agreed_of};
ghost use Rattle.c_phrases.specs.Got.{kind_of};
ghost use Rattle.c_phrases.specs.Steps.{IsGathered};

use crate::cursor::{Mark, Part, Parts, Stop};
use crate::names::Naming;
use crate::tables::is_type_word;
use c_tree::{NodeKind, SpecifierWord};

/// A phrase whose height counts.
#[derive(Clone, Copy)]
pub enum Phrase {
    /// An expression of at least this level (`COMMA` to `POSTFIX`).
    Expression(u32),
    Declarator(Naming),
    Parameter,
    Member,
    Enumerator,
    Initializer,
}

/// A step of a production.
#[derive(Clone, Copy)]
pub(crate) enum Step {
    Read(Phrase),
    TypeName,
    /// Phrases with commas between them, or none before `)`.
    Listed(Phrase),
    Expect(Mark),
}

/// Specifiers, and what they say of the declaration.
#[derive(Clone, Copy)]
pub struct Specified<'a> {
    pub part: Part<'a>,
    /// `typedef` is among them.
    pub defines: bool,
    /// One of them names a type.
    pub names_type: bool,
}

/// What the specifiers so far are.
#[derive(Drop)]
pub(crate) struct Gathered {
    pub(crate) parts: Parts,
    pub(crate) defines: bool,
    pub(crate) typedef_name: bool,
    pub(crate) type_names: u32,
}

fn is_typedef_word(kind: NodeKind) -> bool
    ensures { (t : Lexeme) (xs : Syns) → result ≡ is_typedef_word_of (node kind t xs) }
{
    matches!(kind, NodeKind::Specifier(SpecifierWord::Typedef))
}

fn is_typedef_node(kind: NodeKind) -> bool
    ensures { (t : Lexeme) (xs : Syns) → result ≡ is_typedef_node_of (node kind t xs) }
{
    matches!(kind, NodeKind::TypedefName)
}

fn names_type(kind: NodeKind) -> bool
    ensures { (t : Lexeme) (xs : Syns) → result ≡ names_type_of (node kind t xs) }
{
    match kind {
        NodeKind::Specifier(word) => is_type_word(word),
        NodeKind::TypedefName | NodeKind::Record(_) | NodeKind::Enum => true,
        _ => false,
    }
}

impl Gathered {
    /// These specifiers, and one more at the end.
    pub(crate) fn with(self, part: Part) -> Result<Gathered, Stop>
        ensures size { IfOk result (λ g. g.parts.height ≡ max self.parts.height part.entry.height) }
        ensures kids { IfOk result (λ g. g.parts.kids.items ≡ self.parts.kids.items ++ part.entry.number ∷ []) }
        ensures full { IfErr result (λ e. e ≡ Stop.NoMemory) }
        ensures gathered { IfOk result (λ g. (xs : Syns) (x : Syn) → part.entry.root.kind ≡ kind_of x →
            IsGathered self xs → IsGathered g (joined xs (one x))) }
    {
        let kind = part.root.kind;
        let Gathered {
            parts,
            defines,
            typedef_name,
            type_names,
        } = self;
        let parts = parts.with(part)?;
        Ok(Gathered {
            parts,
            defines: defines | is_typedef_word(kind),
            typedef_name: typedef_name | is_typedef_node(kind),
            type_names: type_names.saturating_add(u32::from(names_type(kind))),
        })
    }

    /// A typedef name is the only one of them that names a type (C11 6.7.2p2).
    pub(crate) fn is_agreed(&self) -> bool
        ensures { (xs : Syns) → IsGathered self.now xs → result ≡ is_agreed_of xs }
    {
        !self.typedef_name || self.type_names == 1
    }
}
