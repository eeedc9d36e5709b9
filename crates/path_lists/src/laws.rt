ghost use Rattle.path_lists.specs.Laws.{ListedPathsLead, PathListsAreOne};

/// A law, with nothing to run: the listed paths lead to their ends.
pub fn listed_paths_lead()
    ensures { ListedPathsLead }
{}

/// A law, with nothing to run: a term has at most one such list.
pub fn path_lists_are_one()
    ensures { PathListsAreOne }
{}
