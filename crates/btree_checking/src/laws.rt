//! Laws of the check.

ghost use Rattle.btree_checking.specs.Laws.{CheckedIsSound, SoundIsChecked, HeightIsBounded, EachIsReadOnce};

/// A tree that the walk finds sound is sound.
pub fn checked_is_sound()
    ensures { CheckedIsSound }
{}

/// A tree that is sound is found so.
pub fn sound_is_checked()
    ensures { SoundIsChecked }
{}

/// No sound tree is higher than there are numbers: that need not be said.
pub fn height_is_bounded()
    ensures { HeightIsBounded }
{}

/// A walk reads no object twice.
pub fn each_is_read_once()
    ensures { EachIsReadOnce }
{}
