ghost use Rattle.std.specs.Prelude.{◌≡◌, ◌≤◌, ◌++◌, length, OnOk};
ghost use Rattle.names_text.specs.Named.{IsNamed};
ghost use Rattle.names_text.specs.VariableNames.{leading_underscores, underscores, variable_name};

use crate::named::NamedTrs;
use itoa::Buffer;
use trs_core::OutOfMemory;

/// How many underscores a variable's name begins with where a system is written: one more than the greatest number of
/// those with which a symbol's name begins, or 1 where there is no symbol.
pub fn underscores(system: &NamedTrs) -> usize
    ensures underscores { result ≡ underscores system.now.names }
    ensures named { IsNamed system.now }
{
    let mut most = 1;
    for f in 0..system.symbols() {
        most = most.max(leading_underscores(system.name(f)) + 1);
    }
    most
}

/// The number of underscores with which a name begins.
fn leading_underscores(name: &[u8]) -> usize
    ensures count { result ≡ leading_underscores name.now }
    ensures within { result ≤ length name.now }
{
    let mut count = 0;
    for b in name {
        if *b != b'_' {
            return count;
        }
        count += 1;
    }
    count
}

/// Appends the name of a variable.
pub fn put_variable(out: &mut Vec<u8>, underscores: usize, variable: u32) -> Result<(), OutOfMemory>
    ensures { OnOk result (out.new.items ≡ out.old.items ++ variable_name underscores variable) }
{
    for _i in 0..underscores {
        out.push(b'_')?;
    }
    let mut buffer = Buffer::new();
    out.extend_from_slice(buffer.format(variable).as_bytes())?;
    Ok(())
}
