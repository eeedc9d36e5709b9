//! Of the terms of a graph it is mostly seen by their numbers that one is a part of another: the
//! subterms of a term get their numbers one after another, but for those that had one before.
ghost use Rattle.std.specs.Prelude.{◌≡◌, ℕ, IfOk, Some, slice_get};
ghost use Rattle.path_lpo.specs.Graph.{AreOverEarlier};
ghost use Rattle.path_lpo.specs.Parts.{IsIn, AreAtMost, AreOfEither, AreReached, AreSpansOf};
ghost use Rattle.path_lpo.specs.Parts.{BelongTo};

use crate::nodes::Node;
use std::alloc::Global;
use trs_core::OutOfMemory;

/// The numbers from one on, and before another.
#[derive(Clone, Copy)]
pub(crate) struct Span {
    pub from: u32,
    pub to: u32,
}

impl Span {
    fn none() -> Span
        ensures { (m : ℕ) → IsIn result m → ⊥ }
    {
        Span { from: 0, to: 0 }
    }

    /// A number alone.
    fn alone(n: u32) -> Span
        ensures { (m : ℕ) → IsIn result m → m ≡ n }
    {
        Span {
            from: n,
            to: n.saturating_add(1),
        }
    }

    /// The numbers of both, where they stand together; else the later ones.
    #[tactic(auto, using(crate::proofs::Spans::together))]
    fn joined(self, other: Span) -> Span
        ensures { AreOfEither self other result }
    {
        if self.from <= other.to && other.from <= self.to {
            return Span {
                from: self.from.min(other.from),
                to: self.to.max(other.to),
            };
        }
        if self.to < other.to {
            return other;
        }
        self
    }
}

/// Of each node, numbers that belong to it.
#[tactic(auto, using(crate::proofs::Spans::no_spans, crate::proofs::Spans::more_spans))]
pub(crate) fn spans_of(alloc: Global, nodes: &[Node]) -> Result<Vec<Span>, OutOfMemory>
    requires { AreOverEarlier nodes.now }
    ensures { IfOk result (λ spans. AreSpansOf nodes.now spans.items) }
{
    let mut spans = Vec::with_capacity(alloc, nodes.len())?;
    for (n, node) in nodes.iter().enumerate() {
        if n >= u32::MAX as usize {
            return Err(OutOfMemory);
        }
        let span = span_of(nodes, &spans, n as u32, *node);
        spans.push(span)?;
    }
    Ok(spans)
}

/// Numbers that belong to a node.
#[tactic(auto, using(crate::proofs::Spans::arguments_below, crate::proofs::Spans::list_reached, crate::proofs::Spans::list_with_itself))]
fn span_of(nodes: &[Node], spans: &[Span], n: u32, node: Node) -> Span
    requires earlier { AreOverEarlier nodes.now }
    requires spans { AreSpansOf nodes.now spans.now }
    requires node { slice_get nodes.now n ≡ Some node }
    ensures { BelongTo nodes.now n node result }
{
    match node {
        Node::Var(_) => Span::none(),
        Node::App(_, args) => span_of_list(nodes, spans, args),
        Node::Nil => Span::none(),
        Node::Cons(first, rest) => {
            let all = span_with(nodes, spans, first).joined(span_of_list(nodes, spans, rest));
            // The list itself is no term, so that its number may be among these.
            if all.to == n {
                Span {
                    from: all.from,
                    to: n.saturating_add(1),
                }
            } else {
                Span::alone(n)
            }
        }
    }
}

/// Numbers of parts of the terms of a list.
fn span_of_list(nodes: &[Node], spans: &[Span], list: u32) -> Span
    requires { AreSpansOf nodes.now spans.now }
    ensures { AreReached nodes.now list result }
{
    match nodes.get(list as usize) {
        Some(Node::Cons(_, _)) => match spans.get(list as usize) {
            Some(span) => *span,
            None => Span::none(),
        },
        _ => Span::none(),
    }
}

/// The number of a term, with numbers of its parts that stand before it.
#[tactic(auto, using(crate::proofs::Spans::alone_at_most, crate::proofs::Spans::joined_at_most))]
fn span_with(nodes: &[Node], spans: &[Span], n: u32) -> Span
    requires { AreSpansOf nodes.now spans.now }
    ensures { AreAtMost nodes.now n result }
{
    match nodes.get(n as usize) {
        Some(Node::App(_, _)) => match spans.get(n as usize) {
            Some(span) => span.joined(Span::alone(n)),
            None => Span::alone(n),
        },
        _ => Span::alone(n),
    }
}
