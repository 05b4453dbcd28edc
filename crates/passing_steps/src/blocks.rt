//! The variables of blocks, by their new numbers.

ghost use Rattle.std.specs.Prelude.{◌≡◌, ◌-◌, ◌++◌, IfOk, OnOk, length};
ghost use Rattle.c_tree.specs.Terms.{numbers_from};
ghost use Rattle.c_copy.specs.Copying.{AllBelow};
ghost use Rattle.passing_nodes.specs.Steps.{AreVariables, AreBlockVars};

use ck_base::NoMemory;
use passing_nodes::Source;

/// The new numbers of variables.
pub fn variables(source: &Source<'_>, ks: &[u32]) -> Result<Vec<u32>, NoMemory>
    requires { AllBelow (length source.now.numbers.now) ks.now }
    ensures { IfOk result (λ v. AreVariables source.now ks.now v.items) }
{
    let mut list = Vec::new(source.alloc);
    for k in ks {
        let v = source.variable(*k);
        list.push(v)?;
    }
    Ok(list)
}

/// Some numbers behind others, from one to before another.
pub fn add_numbers(list: &mut Vec<u32>, from: u32, to: u32) -> Result<(), NoMemory>
    ensures { OnOk result (list.new.items ≡ list.old.items ++ numbers_from from (to - from)) }
{
    for k in from..to {
        list.push(k)?;
    }
    Ok(())
}

/// The variables of the outermost block: the locals that parameters are copied to, those that it declares, and the
/// hidden ones.
pub fn block_vars(
    source: &Source<'_>,
    copied: (u32, u32),
    vars: &[u32],
    hidden: (u32, u32),
) -> Result<Vec<u32>, NoMemory>
    requires { AllBelow (length source.now.numbers.now) vars.now }
    ensures { IfOk result (λ v. AreBlockVars source.now copied vars.now hidden v.items) }
{
    let declared = variables(source, vars)?;
    let mut list = Vec::new(source.alloc);
    add_numbers(&mut list, copied.0, copied.1)?;
    list.extend_from_slice(declared.as_slice())?;
    add_numbers(&mut list, hidden.0, hidden.1)?;
    Ok(list)
}
