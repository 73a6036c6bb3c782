//! Records.

ghost use Rattle.std.specs.Prelude.{◌≡◌, true};
ghost use Rattle.pickle_graph.specs.Class.{is_class};

use pickle_graph::Pickle;

/// An object: its class, which is a global or a tuple that begins with one, and its state.
#[derive(Drop)]
pub struct ObjectRecord {
    pub class: Pickle,
    pub state: Pickle,
    pub ghost class_is: { is_class class ≡ true },
}
