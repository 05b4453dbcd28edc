//! The library functions.
ghost use Rattle.std.specs.Prelude.{OnOk};
ghost use Rattle.select_words.specs.Services.{Argument};
ghost use Rattle.rv_select.specs.Choosing.{chosen, ChoosesFirst, ChoosesSome, ReachesHeap, ServiceWords};
ghost use Rattle.rv_emit.specs.Growing.{Grows, Puts};
ghost use Rattle.tac_ir.specs.Costs.{service_cost};

use crate::function::Function;
use crate::homes::{bring, keep_some};
use ck_base::NoMemory;
use rv_emit::Code;
use rv_idioms::allocate;
use rv_instr::Reg;
use tac_ir::LibOp;

/// Brings the first argument to c10, where there is one.
fn first_argument(code: &mut Code, f: &Function<'_>, args: &[u32]) -> Result<(), NoMemory>
    ensures size { OnOk result (Grows 3 code.old code.new) }
    ensures words { OnOk result (ChoosesFirst f.now args.now →
        Puts (Argument (chosen f.now) args.now) code.old code.new) }
{
    match args.first() {
        None => Ok(()),
        Some(t) => bring(code, f, Reg::RESULT, *t),
    }
}

/// A call of a library function.
pub fn service(
    code: &mut Code,
    f: &Function<'_>,
    op: LibOp,
    to: Option<u32>,
    args: &[u32],
) -> Result<(), NoMemory>
    ensures size { OnOk result (Grows (service_cost op) code.old code.new) }
    ensures words { OnOk result (ReachesHeap f.now op args.now → ChoosesFirst f.now args.now → ChoosesSome f.now to →
        Puts (ServiceWords (chosen f.now) op to args.now) code.old code.new) }
{
    match op {
        LibOp::PutChar => {
            first_argument(code, f, args)?;
            code.ask(1)?;
            keep_some(code, f, to, Reg::RESULT)
        }
        LibOp::GetChar => {
            code.ask(2)?;
            keep_some(code, f, to, Reg::RESULT)
        }
        LibOp::Exit => {
            first_argument(code, f, args)?;
            code.ask(3)
        }
        LibOp::Malloc => {
            first_argument(code, f, args)?;
            allocate(code, f.entries.heap.saturating_mul(16))?;
            keep_some(code, f, to, Reg::RESULT)
        }
    }
}
