//! Values with several owners.

ghost use Rattle.std.specs.Prelude.{◌≡◌, IfOk};

use std::alloc::{AllocError, Global};
use std::marker::Model;
use std::ops::Deref;
use std::sync::Arc;

/// A value that several own and none changes, so that what was read once need not be copied. Contracts see the value.
#[derive(Drop)]
pub struct Shared<T> {
    value: Arc<T, Global>,
}

impl<T> Model for Shared<T> {
    ghost use Rattle.std.specs.Arc.{arc_value};

    ghost Value = { T };

    ghost view = { λ shared. arc_value shared.value };
}

impl<T> Deref for Shared<T> {
    ghost use Rattle.std.specs.Prelude.{◌≡◌};

    type Target = T;

    ghost deref_gives = { λ shared x. x ≡ shared };

    fn deref(&self) -> &T
        ensures { result.now ≡ self.now }
    {
        &self.value
    }
}

impl<T> Shared<T> {
    /// A value with one owner. The one error is want of memory.
    pub fn new(alloc: Global, value: T) -> Result<Shared<T>, AllocError>
    where
        T: Drop,
        ensures { IfOk result (λ shared. shared ≡ value) }
    {
        let value = Arc::new(alloc, value)?;
        Ok(Shared { value })
    }

    /// The value with one owner more, who takes no memory. The one error is that it has 2^63 owners.
    pub fn again(&self) -> Result<Shared<T>, AllocError>
        ensures { IfOk result (λ again. again ≡ self.now) }
    {
        let value = Arc::try_clone(&self.value)?;
        Ok(Shared { value })
    }
}
