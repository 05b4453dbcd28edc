//! The length of an array that its initialiser gives (C11 6.7.9p22).

ghost use Rattle.std.specs.Prelude.{◌≡◌, ◌<◌, IfOk};
ghost use Rattle.c_tree.specs.Initializers.{with_count};
ghost use Rattle.c_expressions.specs.Nodes.{IsWhole, HasType, type_in, type_count};

use c_expressions::{Class, Nodes};
use c_tree::CType;
use ck_base::NoMemory;

/// The type of an object whose initialiser gives so many elements: an array whose length is not known gets it.
pub fn with_count(nodes: &mut Nodes, of: u32, count: u64) -> Result<u32, NoMemory>
    requires whole { IsWhole nodes.old }
    requires there { of < type_count nodes.old }
    ensures { IfOk result (λ k. HasType nodes.old nodes.new k (with_count (type_in nodes.old of) count)) }
{
    match nodes.class(of) {
        Class::Array(element, length) => {
            if length == 0 {
                nodes.type_number(CType::Array(element, count))
            } else {
                Ok(of)
            }
        }
        _ => Ok(of),
    }
}
