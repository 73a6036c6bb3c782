//! Laws of literals. A law is the contract of a function that does nothing.

ghost use Rattle.zb_literals.specs.Plain.{PlainIsScriptLiteral, TreesUnfoldAgain};

/// The literal of a graph without objects, in which the writer of pickles puts nothing, is the script
/// literal of the tree into which the graph unfolds. So [`read_literal`](crate::read_literal) reads it, as
/// the graph of that tree.
pub fn plain_graphs_have_script_literals()
    ensures { PlainIsScriptLiteral }
{}

/// The graph that stands for a tree unfolds into that tree.
pub fn trees_unfold_again()
    ensures { TreesUnfoldAgain }
{}
