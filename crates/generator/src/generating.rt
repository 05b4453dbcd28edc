//! Generating a C file.

ghost use Rattle.std.specs.Prelude.{◌≡◌, ◌++◌, ◌≤◌, ◌<◌, OnOk, IfOk, codes, decimal};
ghost use Rattle.generator.specs.Generated.{function_line, function_lines, call, calls, generated};

use ck_base::NoMemory;
use itoa::Buffer;
use std::alloc::Global;

/// Appends some text.
fn push(into: &mut Vec<u8>, text: &str) -> Result<(), NoMemory>
    ensures { OnOk result (into.new.items ≡ into.old.items ++ text.now) }
{
    into.extend_from_slice(text.as_bytes())?;
    Ok(())
}

/// Appends a number in decimal.
fn push_number(into: &mut Vec<u8>, number: u32) -> Result<(), NoMemory>
    ensures { OnOk result (into.new.items ≡ into.old.items ++ decimal number) }
{
    push(into, Buffer::new().format(number))
}

/// Appends function k.
fn push_function(into: &mut Vec<u8>, k: u32) -> Result<(), NoMemory>
    requires { k < 64 }
    ensures { OnOk result (into.new.items ≡ into.old.items ++ function_line k) }
{
    push(into, "int f")?;
    push_number(into, k)?;
    push(into, "(int x){int a[8];int i;for(i=0;i<8;i=i+1)a[i]=x+i*")?;
    push_number(into, k + 3)?;
    push(into, ";return a[x&7]%251;}\n")
}

/// Appends functions 0 to n - 1.
fn push_functions(into: &mut Vec<u8>, n: u32) -> Result<(), NoMemory>
    requires { n ≤ 64 }
    ensures { OnOk result (into.new.items ≡ into.old.items ++ function_lines n) }
{
    for k in 0..n {
        push_function(into, k)?;
    }
    Ok(())
}

/// Appends a call of function k.
fn push_call(into: &mut Vec<u8>, k: u32) -> Result<(), NoMemory>
    ensures { OnOk result (into.new.items ≡ into.old.items ++ call k) }
{
    push(into, "s=f")?;
    push_number(into, k)?;
    push(into, "(s);")
}

/// Appends calls of functions 0 to n - 1.
fn push_calls(into: &mut Vec<u8>, n: u32) -> Result<(), NoMemory>
    ensures { OnOk result (into.new.items ≡ into.old.items ++ calls n) }
{
    for k in 0..n {
        push_call(into, k)?;
    }
    Ok(())
}

/// A C file of n functions, each with an array and a loop, and of a function `main` that calls each of them a hundred
/// times. It takes no input and puts no output.
pub fn generate(alloc: Global, n: u32) -> Result<Vec<u8>, NoMemory>
    requires { n ≤ 64 }
    ensures { IfOk result (λ file. file.items ≡ generated n) }
{
    let mut file = Vec::new(alloc);
    push_functions(&mut file, n)?;
    push(
        &mut file,
        "int main(void){int s;int n;s=1;for(n=0;n<100;n=n+1){",
    )?;
    push_calls(&mut file, n)?;
    push(&mut file, "}return s;}\n")?;
    Ok(file)
}
