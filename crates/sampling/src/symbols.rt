ghost use Rattle.std.specs.Prelude.{◌≡◌, IfOk, map};
ghost use Rattle.sampling.specs.Family.{function_name, names_to, arities_to};

use itoa::Buffer;
use std::alloc::Global;
use trs_core::OutOfMemory;

/// The names of `0`, `s` and the functions before a number.
pub fn names(alloc: Global, n: u32) -> Result<Vec<Vec<u8>>, OutOfMemory>
    ensures { IfOk result (λ names. map (λ name. name.items) names.items ≡ names_to n) }
{
    let zero = Vec::from_slice(alloc, b"0")?;
    let successor = Vec::from_slice(alloc, b"s")?;
    let mut names = vec![in alloc; zero, successor]?;
    for i in 0..n {
        names.push(function_name(alloc, i)?)?;
    }
    Ok(names)
}

fn function_name(alloc: Global, i: u32) -> Result<Vec<u8>, OutOfMemory>
    ensures { IfOk result (λ name. name.items ≡ function_name i) }
{
    let mut name = Vec::from_slice(alloc, b"f")?;
    let mut buffer = Buffer::new();
    name.extend_from_slice(buffer.format(i).as_bytes())?;
    Ok(name)
}

/// How many arguments `0`, `s` and the functions before a number have.
pub fn arities(alloc: Global, n: u32) -> Result<Vec<u8>, OutOfMemory>
    ensures { IfOk result (λ arities. arities.items ≡ arities_to n) }
{
    let mut arities = Vec::from_slice(alloc, &[0, 1])?;
    arities.resize(2 + n as usize, 2)?;
    Ok(arities)
}
