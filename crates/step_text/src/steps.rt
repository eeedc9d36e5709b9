ghost use Rattle.std.specs.Prelude.{◌≡◌, ◌≤◌, ◌++◌, List, OnOk, IfOk};
ghost use Rattle.sexp_core.specs.Items.{view, views};
ghost use Rattle.sexp_core.specs.Printed.{text_of};
ghost use Rattle.trs_defs.specs.Path.{PlacedRule};
ghost use Rattle.names_text.specs.VariableNames.{underscores as underscores_of};
ghost use Rattle.cert_step.specs.ProofStep.{step_of, order_step, node_step_of};
ghost use Rattle.text_reading.specs.Seen.{seen};
ghost use Rattle.path_text.specs.Sharing.{behind_paths};
ghost use Rattle.step_text.specs.MethodForms.{form_of};
ghost use Rattle.step_text.specs.Ranges.{HasNumbersInRange};
ghost use Rattle.step_text.specs.Steps.{method, method_item, paths_of_method, node_step, step, paths_of_step, step_item};

use crate::confluence_text::{put_confluence, read_confluence};
use crate::dp_text::{put_dp, read_dp};
use crate::fork_text::{put_fork, read_fork};
use crate::graph_text::{put_graph, read_graph};
use crate::kbo_text::{put_kbo, read_kbo};
use crate::label_text::{put_label, read_label};
use crate::loop_text::{put_loop, read_loop};
use crate::lpo_text::{put_lpo, read_lpo};
use crate::methods::{Method, read_method_word};
use crate::newman_text::{put_newman, read_newman};
use crate::parallel_text::{put_parallel, read_parallel};
use crate::poly_text::{put_poly, read_poly};
use crate::strong_text::{put_strong, read_strong};
use crate::subterm_text::{put_subterm, read_subterm};
use crate::usable_text::{put_usable, read_usable};
use cert_step::{AnyOrder, NodeStep, Step};
use names_text::NamedTrs;
use path_text::{PathNames, Shared};
use sexp_core::Sexp;
use std::alloc::Global;
use text_reading::{Read, both, keyword, place, put, put_number, read_number, refuse_more};
use trs_core::{GREATEST_NUMBER, OutOfMemory};

/// A method, `(word ..)`, by its word.
fn read_method(
    alloc: Global,
    system: &NamedTrs,
    sharing: &mut Option<Shared>,
    item: &Sexp,
) -> Result<Read<Step>, OutOfMemory>
    ensures read { IfOk result (λ r.
        seen step_of r ≡ method system.now sharing.old (view item.now)) }
    ensures left { IfOk result (λ r. IfOk r (λ s. sharing.new
        ≡ behind_paths sharing.old (paths_of_method (step_of s)))) }
{
    let Sexp::List(at, members) = item else {
        return Ok(Err(place(item)));
    };
    let Some((head, members)) = members.split_first() else {
        return Ok(Err(*at));
    };
    match read_method_word(head) {
        Ok(method) => read_form(alloc, system, sharing, method, *at, members),
        Err(at) => Ok(Err(at)),
    }
}

/// What is read of the members behind the word of a method in a list at a place.
fn read_form(
    alloc: Global,
    system: &NamedTrs,
    sharing: &mut Option<Shared>,
    method: Method,
    at: u32,
    members: &[Sexp],
) -> Result<Read<Step>, OutOfMemory>
    ensures read { IfOk result (λ r.
        seen step_of r ≡ form_of system.now sharing.old method at (views members.now)) }
    ensures left { IfOk result (λ r. IfOk r (λ s. sharing.new
        ≡ behind_paths sharing.old (paths_of_method (step_of s)))) }
{
    match method {
        Method::Dp => Ok(read_dp(members)),
        Method::Graph => read_graph(alloc, members),
        Method::Subterm => read_subterm(alloc, system, members),
        Method::Poly => read_poly(alloc, system, members),
        Method::Lpo => read_lpo(alloc, system, members),
        Method::Kbo => read_kbo(alloc, system, members),
        Method::UsablePoly => read_usable(alloc, system, members),
        Method::Loop => read_loop(alloc, system, sharing, at, members),
        Method::Newman => read_newman(alloc, sharing, members),
        Method::Parallel => read_parallel(alloc, members),
        Method::Strong => read_strong(alloc, sharing, members),
        Method::Label => read_label(alloc, sharing, at, members),
        Method::Fork => read_fork(alloc, system, sharing, at, members),
        Method::Confluence => Ok(read_confluence(members)),
    }
}

/// A step for a node, `(step number method)`.
pub fn read_step(
    alloc: Global,
    system: &NamedTrs,
    sharing: &mut Option<Shared>,
    item: &Sexp,
) -> Result<Read<NodeStep>, OutOfMemory>
    ensures read { IfOk result (λ r.
        seen node_step_of r ≡ step system.now sharing.old (view item.now)) }
    ensures left { IfOk result (λ r. IfOk r (λ s. sharing.new
        ≡ behind_paths sharing.old (paths_of_step (node_step_of s)))) }
{
    let Sexp::List(at, members) = item else {
        return Ok(Err(place(item)));
    };
    let [head, node, method, more @ ..] = *members else {
        return Ok(Err(*at));
    };
    let head = keyword(b"step", head);
    let node = read_number(GREATEST_NUMBER, node);
    let method = read_method(alloc, system, sharing, method)?;
    Ok(node_step(refuse_more(both(both(head, node), method), more)))
}

fn node_step(parts: Read<(((), u64), Step)>) -> Read<NodeStep>
    ensures { seen node_step_of result ≡ seen (λ p. node_step p.0.0 p.0.1 (step_of p.1)) parts }
{
    match parts {
        Ok((((), node), step)) => Ok(NodeStep { node, step }),
        Err(at) => Err(at),
    }
}

/// Appends the text of a method.
fn put_method(
    alloc: Global,
    out: &mut Vec<u8>,
    system: &NamedTrs,
    names: &PathNames<'_>,
    underscores: usize,
    step: &Step,
) -> Result<(), OutOfMemory>
    requires { underscores ≡ underscores_of system.now.names }
    ensures text { OnOk result (out.new.items
        ≡ out.old.items ++ text_of (method_item system.now names.now (step_of step.now))) }
    ensures range { OnOk result (HasNumbersInRange (step_of step.now)) }
{
    match step {
        Step::Dp => put_dp(out),
        Step::Graph(items) => put_graph(out, items),
        Step::Subterm(projection) => put_subterm(out, system, projection),
        Step::Order(order) => put_order(out, system, order),
        Step::UsablePoly(table) => put_usable(out, system, table),
        Step::Loop { start, path, place } => {
            put_loop(alloc, out, system, names, underscores, start, path, place)
        }
        Step::Newman(joins) => put_newman(out, names, joins),
        Step::Parallel(steps) => put_parallel(out, steps),
        Step::Strong(fours) => put_strong(out, names, fours),
        Step::Label { ranks, joins } => put_label(out, names, ranks, joins),
        Step::Fork {
            start,
            left,
            right,
            test,
        } => put_fork(
            alloc,
            out,
            system,
            names,
            underscores,
            start,
            left,
            right,
            *test,
        ),
        Step::Confluence => put_confluence(out),
    }
}

/// Appends the text of the method of an order.
fn put_order(out: &mut Vec<u8>, system: &NamedTrs, order: &AnyOrder) -> Result<(), OutOfMemory>
    ensures text { OnOk result ((names : List (List PlacedRule)) → out.new.items
        ≡ out.old.items ++ text_of (method_item system.now names (order_step order.now))) }
    ensures range { OnOk result (HasNumbersInRange (order_step order.now)) }
{
    match order {
        AnyOrder::Poly(table) => put_poly(out, system, table),
        AnyOrder::Lpo(order) => put_lpo(out, system, order),
        AnyOrder::Kbo(order) => put_kbo(out, system, order),
    }
}

/// Appends the text of a step, with so many underscores before each variable.
pub fn put_step(
    alloc: Global,
    out: &mut Vec<u8>,
    system: &NamedTrs,
    names: &PathNames<'_>,
    underscores: usize,
    step: &NodeStep,
) -> Result<(), OutOfMemory>
    requires { underscores ≡ underscores_of system.now.names }
    ensures text { OnOk result (out.new.items
        ≡ out.old.items ++ text_of (step_item system.now names.now (node_step_of step.now))) }
    ensures range { OnOk result (HasNumbersInRange (step_of step.now.step)) }
{
    put(out, b"(step ")?;
    put_number(out, step.node)?;
    put(out, b" ")?;
    put_method(alloc, out, system, names, underscores, &step.step)?;
    put(out, b")")?;
    Ok(())
}
