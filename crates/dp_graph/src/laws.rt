ghost use Rattle.dp_graph.specs.Edge.{EdgesAreByArguments, EdgesCoverChainSteps};
ghost use Rattle.dp_graph.specs.Laws.{GraphStepsConclude, GraphStepsAnswerOnce};
ghost use Rattle.dp_graph.specs.Laws.{GroupsAreOfProblem, ComponentsPass};

/// A law, with nothing to run: a test that holds where there is an edge covers the chain steps of a
/// system. (Giesl, Thiemann and Schneider-Kamp, 2005.)
pub fn edges_cover_chain_steps()
    ensures { EdgesCoverChainSteps }
{}

/// A law, with nothing to run: in a system with at most 4,095 symbols the cap of a marked right side
/// keeps its root, and so an edge is one by the arguments.
pub fn edges_are_by_arguments()
    ensures { EdgesAreByArguments }
{}

/// A law, with nothing to run: a problem is finite if that of each group of a step by the graph is;
/// the conditions have one answer, and the groups have pairs of the problem alone. (Arts and Giesl,
/// 2000.)
pub fn graph_steps_conclude()
    ensures conclude { GraphStepsConclude }
    ensures once { GraphStepsAnswerOnce }
    ensures groups { GroupsAreOfProblem }
{}

/// A law, with nothing to run: a step by the components of a problem is not refused.
pub fn components_pass()
    ensures { ComponentsPass }
{}
