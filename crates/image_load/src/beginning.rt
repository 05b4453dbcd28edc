//! The registers with which a machine begins.
ghost use Rattle.std.specs.Prelude.{◌≡◌, ◌<◌, ◌^◌, true};
ghost use Rattle.image_load.specs.Extents.{end_of, is_encodable, registers};

use crate::extent::{Extent, bounded};
use cap_ops::{Cap, UNSEALED, null};

/// All permissions but Execute.
const DATA: u16 = 125;

fn end(e: Extent) -> u64
    requires { end_of e < 2 ^ 64 }
    ensures { result ≡ end_of e }
{
    e.0 + e.1
}

/// The registers of a machine that begins with a stack and a table.
pub fn registers(stack: Extent, table: Extent) -> [Cap; 32]
    requires stack { is_encodable stack ≡ true }
    requires table { is_encodable table ≡ true }
    requires end { end_of stack < 2 ^ 64 }
    ensures { result ≡ registers stack table }
{
    let mut regs = [null(0); 32];
    regs[2] = bounded(stack, DATA, UNSEALED, end(stack));
    regs[3] = bounded(table, DATA, UNSEALED, table.0);
    regs
}
