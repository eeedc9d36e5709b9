//! Values of all the different subterms of two terms, each worked out once.
ghost use Rattle.std.specs.Prelude.{◌≡◌, ℕ, Some, map, slice_get, IfOk, IfSome};
ghost use Rattle.std.specs.Coded.{codes};
ghost use Rattle.trs_defs.specs.Tree.{tree_code};
ghost use Rattle.trs_core.specs.View.{tree};
ghost use Rattle.poly_lin.specs.Subterms.{AreOfArguments, AreOverEarlier, IsNumberOf};
ghost use Rattle.poly_lin.specs.Subterms.{are_at_prop, term_of, terms, value_at_one};

use crate::Coefficients;
use crate::listing::{Listing, Subterm};
use crate::values::plus_saturated;
use std::alloc::Global;
use trs_core::{OutOfMemory, Term};

/// The different subterms of two terms, listed once for any number of tables.
#[derive(Drop)]
pub struct Subterms<'a> {
    pub(crate) left: &'a Term,
    pub(crate) right: &'a Term,
    nodes: Vec<Subterm<'a>>,
    left_number: u32,
    right_number: u32,
    ghost earlier: { AreOverEarlier nodes.items } by { Prim.hlevel (are_at_prop) },
    ghost left_is: { IsNumberOf nodes.items left_number (tree left.now) } by { Prim.hlevel (codes, tree_code) },
    ghost right_is: { IsNumberOf nodes.items right_number (tree right.now) } by { Prim.hlevel (codes, tree_code) },
}

impl<'a> Subterms<'a> {
    /// The subterms of these terms, or `None` where more than half of their nodes are different
    /// subterms, for which a list would be no help.
    pub fn of(
        alloc: Global,
        left: &'a Term,
        right: &'a Term,
    ) -> Result<Option<Subterms<'a>>, OutOfMemory>
        ensures left { IfOk result (λ found. IfSome found
            (λ subterms. tree subterms.left.now ≡ tree left.now)) }
        ensures right { IfOk result (λ found. IfSome found
            (λ subterms. tree subterms.right.now ≡ tree right.now)) }
    {
        let nodes = left.size().saturating_add(right.size());
        let mut listing = Listing::new(alloc, nodes)?;
        let left_number = listing.add(alloc, left)?;
        let right_number = listing.add(alloc, right)?;
        if listing.nodes.len() as u64 > nodes / 2 {
            return Ok(None);
        }
        Ok(Some(Subterms {
            left,
            right,
            nodes: listing.nodes,
            left_number,
            right_number,
        }))
    }

    /// The values of the two polynomials where each variable stands for 1, as far as 64 bits tell.
    pub(crate) fn values_at_one<T: Coefficients>(
        &self,
        alloc: Global,
        table: &T,
    ) -> Result<(u64, u64), OutOfMemory>
        ensures left { IfOk result (λ values.
            values.0 ≡ value_at_one (T.coefficient table.now) (tree self.now.left.now)) }
        ensures right { IfOk result (λ values.
            values.1 ≡ value_at_one (T.coefficient table.now) (tree self.now.right.now)) }
    {
        let values = values_of(alloc, table, &self.nodes)?;
        Ok((
            value_at(&values, self.left_number),
            value_at(&values, self.right_number),
        ))
    }
}

/// The value of each, where variables stand for 1, as far as 64 bits tell.
fn values_of<T: Coefficients>(
    alloc: Global,
    table: &T,
    nodes: &[Subterm],
) -> Result<Vec<u64>, OutOfMemory>
    requires { AreOverEarlier nodes.now }
    ensures { IfOk result (λ values.
        values.items ≡ map (value_at_one (T.coefficient table.now)) (terms nodes.now)) }
{
    let mut values = Vec::with_capacity(alloc, nodes.len())?;
    for node in nodes {
        let value = value_over(table, &values, node);
        values.push(value)?;
    }
    Ok(values)
}

/// The value of a subterm, where those of its arguments are known.
fn value_over<T: Coefficients>(table: &T, values: &[u64], node: &Subterm) -> u64
    requires { AreOfArguments (value_at_one (T.coefficient table.now)) values.now
        node.now.args.items (term_of node.now) }
    ensures { result ≡ value_at_one (T.coefficient table.now) (term_of node.now) }
{
    match node.term {
        Term::Var(_) => 1,
        Term::App(f, _) => {
            let row = table.row(*f);
            let mut sum = table.at(row, 0);
            for (i, n) in node.args.iter().enumerate() {
                let factor = table.at(row, i + 1);
                sum = plus_saturated(sum, factor, value_at(values, *n));
            }
            sum
        }
    }
}

fn value_at(values: &[u64], n: u32) -> u64
    ensures { (value : ℕ) → slice_get values.now n ≡ Some value → result ≡ value }
{
    match values.get(n as usize) {
        Some(value) => *value,
        None => 0,
    }
}
