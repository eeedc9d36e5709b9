//! Hashes of terms.
use crate::word_rows::mixed;
use trs_core::Term;

/// A number that is mostly another one for another term, and the number of the term's nodes.
#[derive(Clone, Copy)]
pub(crate) struct TermHash {
    pub(crate) hash: u64,
    pub(crate) nodes: u32,
}

impl TermHash {
    pub(crate) fn of(t: &Term) -> TermHash {
        let mut all = TermHash { hash: 1, nodes: 0 };
        all.add(t);
        all
    }

    /// Adds the nodes of a term, in preorder.
    fn add(&mut self, t: &Term) {
        match t {
            Term::Var(v) => self.add_node(!u64::from(*v)),
            Term::App(f, args) => {
                self.add_node(u64::from(*f));
                for arg in &args.items {
                    self.add(arg);
                }
            }
        }
    }

    fn add_node(&mut self, word: u64) {
        self.hash = mixed(self.hash, word);
        self.nodes = self.nodes.saturating_add(1);
    }
}
