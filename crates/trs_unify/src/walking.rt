ghost use Rattle.std.specs.Prelude.{◌≡◌, ◌<◌, length, OnOk};
ghost use Rattle.trs_defs.specs.Substitution.{apply, bound};
ghost use Rattle.trs_defs.specs.Variable.{with_variables};
ghost use Rattle.trs_core.specs.View.{tree};
ghost use Rattle.trs_unify.specs.Renamed.{AreNames};
ghost use Rattle.trs_unify.specs.Shared.{IsShared, shared_trees, tree_at};
ghost use Rattle.trs_unify.specs.Walked.{AreWalked};

use crate::Unifier;
use crate::naming::{Names, number_of};
use crate::shared::Node;
use std::alloc::Global;
use trs_core::{OutOfMemory, Term};

impl Unifier {
    /// Gives numbers to the variables of an instance that have none yet, in the order in which they
    /// would be met. The instance is not built, and however large it is, each node is walked through
    /// only once.
    pub fn name_instance(
        &self,
        alloc: Global,
        t: &Term,
        names: &mut Names,
    ) -> Result<(), OutOfMemory>
        requires { AreNames names.old.numbers names.old.order.items }
        ensures names { OnOk result (AreNames names.new.numbers names.new.order.items) }
        ensures order { OnOk result (names.new.order.items
            ≡ with_variables names.old.order.items (apply (bound self.now) (tree t.now))) }
    {
        let vars = t.vars(alloc)?;
        let mut marks = vec![in alloc; false; self.nodes.len()]?;
        for v in &vars {
            let Some(i) = self.variables.get(v) else {
                number_of(*v, names)?;
                continue;
            };
            name_node(&self.nodes, self.places[*i], &mut marks, names)?;
        }
        Ok(())
    }
}

/// Gives numbers to the variables of a node's term that have none yet. Marked are the symbols that
/// were walked through.
fn name_node(
    nodes: &[Node],
    i: usize,
    marks: &mut [bool],
    names: &mut Names,
) -> Result<(), OutOfMemory>
    requires shared { IsShared nodes.now }
    requires inside { i < length nodes.now }
    requires names { AreNames names.old.numbers names.old.order.items }
    requires walked { AreWalked nodes.now marks.old names.old.order.items }
    ensures names { OnOk result (AreNames names.new.numbers names.new.order.items) }
    ensures walked { OnOk result (AreWalked nodes.now marks.new names.new.order.items) }
    ensures order { OnOk result (names.new.order.items
        ≡ with_variables names.old.order.items (tree_at (shared_trees nodes.now) i)) }
{
    match &nodes[i] {
        Node::Var(v) => {
            number_of(*v, names)?;
            Ok(())
        }
        Node::App(_, args) => {
            if marks[i] {
                return Ok(());
            }
            for arg in args {
                name_node(nodes, *arg, marks, names)?;
            }
            marks[i] = true;
            Ok(())
        }
    }
}
