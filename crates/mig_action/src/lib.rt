//! What field functions do, as plain data, and the laws of it, each the contract of an empty function.
#![tactic(auto)]

ghost use Rattle.mig_action.specs.Laws.{FitStays, NoMoreNodes, NodesStay, PartsStay, ShapeStays, TreeActs};

/// What a function does to the parts of a value is what it does to the value's tree.
pub fn tree_acts()
    ensures { TreeActs }
{}

/// The answer has the shape of the new record.
pub fn shape_stays()
    ensures { ShapeStays }
{}

/// In every family in which the value fits the record, and whose form its tree has, the answer fits the new record.
pub fn fit_stays()
    ensures { FitStays }
{}

/// Each node that stands at a point of the answer stood at a point of the value.
pub fn nodes_stay()
    ensures { NodesStay }
{}

/// For every test of names, the answer has at most as many nodes whose name passes as the value.
pub fn no_more_nodes()
    ensures { NoMoreNodes }
{}

/// The names of the answer are distinct, and its lists ascend.
pub fn parts_stay()
    ensures { PartsStay }
{}
