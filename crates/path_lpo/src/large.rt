use trs_core::Term;

/// So many nodes make a term large.
const LARGE: u32 = 256;

/// Whether a term is large. Its nodes are counted only as far as that needs.
pub(crate) fn is_large(t: &Term) -> bool {
    after(t, LARGE) == 0
}

/// What is left of a number of nodes behind those of the term.
fn after(t: &Term, nodes: u32) -> u32 {
    let mut left = nodes.saturating_sub(1);
    if let Term::App(_, args) = t {
        for arg in &args.items {
            if left == 0 {
                return 0;
            }
            left = after(arg, left);
        }
    }
    left
}
