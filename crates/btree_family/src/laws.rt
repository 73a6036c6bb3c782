//! Laws of the table and of the order. A law is the contract of a function that does nothing.

ghost use Rattle.std.specs.Prelude.{IsTrue};
ghost use Rattle.std.specs.Cmp.{IsTotalOrder};
ghost use Rattle.std.specs.FinMap.{IsAntisymmetric};
ghost use Rattle.btree_family.specs.Classes.{classes, no_class_twice, ClassStandsOnce, NamesLeadToClass};
ghost use Rattle.btree_family.specs.Keys.{key_cmp};

/// No class stands twice in the table, so a module and a name lead to each class that has them.
pub fn classes_stand_once()
    ensures tested { IsTrue (no_class_twice classes) }
    ensures once { ClassStandsOnce }
    ensures found { NamesLeadToClass }
{}

/// The order of keys is total, and only a key itself is equal to it.
pub fn keys_are_ordered()
    ensures total { IsTotalOrder key_cmp }
    ensures same { IsAntisymmetric key_cmp }
{}
