//! The law of counted nodes, as a function that a caller can cite.
ghost use Rattle.mig_codec.specs.Laws.{NodesByTree};

/// In a formed family a value that fits as reading gives it has, for each test of names, as many nodes whose name passes as its tree has by the family.
pub fn nodes_by_tree()
    ensures { NodesByTree }
{}
