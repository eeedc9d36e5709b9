ghost use Rattle.std.specs.Prelude.{◌≡◌, ◌++◌, [], ◌∷◌, false, IfOk, OnOk};
ghost use Rattle.sexp_core.specs.Items.{view, items_of};
ghost use Rattle.sexp_core.specs.Printed.{text_of, lines};
ghost use Rattle.text_reading.specs.Seen.{seen};
ghost use Rattle.path_text.specs.Sharing.{with_definition};
ghost use Rattle.path_text.specs.Defining.{is_defined, new_word, definition, define, define_item, define_items};
ghost use Rattle.path_text.specs.Defined.{definition_seen, one_more_defined};

use crate::naming::PathNames;
use crate::printing::put_plain_path;
use crate::reading::read_shared_path;
use crate::sharing::{DefinedPath, Definitions, Shared};
use rewrite_core::PathStep;
use sexp_core::Sexp;
use std::alloc::Global;
use text_reading::{Read, both, keyword, place, put, put_number, refuse_more};
use trs_core::OutOfMemory;

/// A definition, `(define word path)`, that is read with those before it and added to them. What
/// its path weighs is taken from what is left.
pub fn read_define(alloc: Global, shared: &mut Shared, item: &Sexp) -> Result<Read<()>, OutOfMemory>
    ensures { IfOk result (λ r. seen (λ _. shared.new) r
        ≡ seen (with_definition shared.old) (define shared.old (view item.now))) }
{
    let Sexp::List(at, members) = item else {
        return Ok(Err(place(item)));
    };
    let [head, word, path, more @ ..] = *members else {
        return Ok(Err(*at));
    };
    let head = keyword(b"define", head);
    let word = read_new_word(alloc, &shared.definitions, word)?;
    let path = read_shared_path(alloc, shared, path)?;
    let definition = definition_of(refuse_more(both(both(head, word), path), more));
    let added = add_definition(shared, definition)?;
    Ok(added)
}

fn definition_of(parts: Read<(((), Vec<u8>), DefinedPath)>) -> Read<(Vec<u8>, DefinedPath)>
    ensures { seen definition_seen result
        ≡ seen (λ p. definition p.0.0 p.0.1.items p.1) parts }
{
    match parts {
        Ok((((), word), path)) => Ok((word, path)),
        Err(at) => Err(at),
    }
}

/// Adds a definition that was read.
fn add_definition(
    shared: &mut Shared,
    read: Read<(Vec<u8>, DefinedPath)>,
) -> Result<Read<()>, OutOfMemory>
    requires { IfOk read (λ d. is_defined shared.old.definitions d.0.items ≡ false) }
    ensures { IfOk result (λ r. seen (λ _. shared.new) r
        ≡ seen (λ d. one_more_defined shared.old (definition_seen d)) read) }
{
    match read {
        Ok((word, path)) => {
            shared.definitions.add(word, path)?;
            Ok(Ok(()))
        }
        Err(at) => Ok(Err(at)),
    }
}

/// A word that is not defined yet.
fn read_new_word(
    alloc: Global,
    definitions: &Definitions,
    item: &Sexp,
) -> Result<Read<Vec<u8>>, OutOfMemory>
    ensures { IfOk result (λ r.
        seen (λ w. w.items) r ≡ new_word definitions.now (view item.now)) }
{
    let Sexp::Word(at, word) = item else {
        return Ok(Err(place(item)));
    };
    if definitions.is_defined(word) {
        return Ok(Err(*at));
    }
    let mut copy = Vec::new(alloc);
    put(&mut copy, word)?;
    Ok(Ok(copy))
}

/// Appends a line with a definition for each path that has a name.
pub fn put_definitions(out: &mut Vec<u8>, names: &PathNames<'_>) -> Result<(), OutOfMemory>
    ensures { OnOk result (out.new.items
        ≡ out.old.items ++ lines (items_of (define_items 0 names.now))) }
{
    for k in 0..names.len() {
        put_definition(out, k, names.get(k))?;
    }
    Ok(())
}

/// Appends a line with the definition of a path with a number.
fn put_definition(out: &mut Vec<u8>, number: usize, path: &[PathStep]) -> Result<(), OutOfMemory>
    ensures { OnOk result (out.new.items
        ≡ out.old.items ++ (text_of (define_item number path.now) ++ 10 ∷ [])) }
{
    put(out, b"(define p")?;
    put_number(out, number as u64)?;
    put(out, b" ")?;
    put_plain_path(out, path)?;
    put(out, b")\n")?;
    Ok(())
}
