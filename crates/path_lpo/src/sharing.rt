ghost use Rattle.std.specs.Prelude.{IfOk};
ghost use Rattle.trs_core.specs.View.{tree};
ghost use Rattle.order_theory.specs.ArgumentFilter.{filtered};
ghost use Rattle.path_lpo.specs.Graph.{Keeps, StandsFor, term};

use crate::Precedence;
use crate::graph::Graph;
use crate::kept::argument;
use crate::nodes::Node;
use crate::root::Root;
use crate::unshared::root;
use trs_core::{OutOfMemory, Term};

/// The number of the filtered term, whose subterms get numbers too.
pub(crate) fn share<P: Precedence>(
    order: &P,
    graph: &mut Graph,
    t: &Term,
) -> Result<u32, OutOfMemory>
    ensures stands { IfOk result (λ n. StandsFor graph.new.nodes.items n
        (term (filtered (P.filters order.now) (tree t.now)))) }
    ensures kept { Keeps graph.old.nodes.items graph.new.nodes.items }
{
    match root(order, t) {
        Root::Variable(x) => graph.number(Node::Var(x)),
        Root::Symbol(f, kept) => {
            let mut list = graph.number(Node::Nil)?;
            let mut k = kept.places.len();
            // From the last argument on, since a list is over the list of the terms behind its first.
            while k > 0 {
                k -= 1;
                let Some(arg) = argument(kept.args, kept.places[k]) else {
                    continue;
                };
                let first = share(order, graph, arg)?;
                list = graph.number(Node::Cons(first, list))?;
            }
            graph.number(Node::App(f, list))
        }
    }
}
