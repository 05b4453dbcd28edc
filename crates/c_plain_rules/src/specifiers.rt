//! What the specifiers of a declaration are, by their kinds and their number (C11 6.7.1, 6.7.2).

ghost use Rattle.std.specs.Prelude.{◌≡◌, ◌==◌, ◌&&◌, ◌||◌, ◌++◌, length, OnOk};
ghost use Rattle.c_plain_rules.specs.Specifiers.{some_list, names_kind};

use c_tree::NodeKind;
use ck_base::NoMemory;

/// Whether a storage class stands among specifiers: one that is `stored`, or `register`.
pub fn has_storage(stored: bool, register: bool) -> bool
    ensures { result ≡ (stored || register) }
{
    stored || register
}

/// Whether it is said that no declarator follows, and one part stands alone.
pub fn is_lone(alone: bool, kids: &[u32]) -> bool
    ensures { result ≡ (alone && length kids.now == 1) }
{
    alone && kids.len() == 1
}

/// Whether a specifier of this kind names a type, and is no word.
pub fn names_type(kind: NodeKind) -> bool
    ensures { names_kind kind ≡ result }
{
    matches!(
        kind,
        NodeKind::TypedefName | NodeKind::Record(_) | NodeKind::Enum
    )
}

/// One more type, if there is one.
pub fn push_some(types: &mut Vec<u32>, of: Option<u32>) -> Result<(), NoMemory>
    ensures { OnOk result (types.new.items ≡ types.old.items ++ some_list of) }
{
    if let Some(k) = of {
        types.push(k)?;
    }
    Ok(())
}
