//! The bytes that a line stores.

ghost use Rattle.std.specs.Prelude.{◌≡◌, ◌<◌, length, IfSome, IsSome, ◌↔◌};
ghost use Rattle.zb_script.specs.Payloads.{IsPayload};

use std::alloc::AllocError;
use std::marker::Model;
use zb_ids::Text8;

/// Bytes to store, at least one. Contracts see the list of the bytes.
#[derive(Debug, Drop)]
pub struct Payload {
    text: Text8,
}

impl Model for Payload {
    ghost use Rattle.std.specs.Prelude.{ℕ, List};
    ghost use Rattle.zb_script.specs.Payloads.{IsPayload};

    ghost Value = { List ℕ };

    ghost view = { λ payload. payload.text };

    ghost invariant = { λ payload. IsPayload payload.text };
}

impl Payload {
    /// The payload of these bytes, or `None` where there is no byte.
    pub fn new(text: Text8) -> Option<Payload>
        ensures some { IsSome result ↔ (0 < length text) }
        ensures value { IfSome result (λ payload. payload ≡ text) }
    {
        if text.as_slice().is_empty() {
            return None;
        }
        Some(Payload { text })
    }

    /// The bytes, where they stand.
    pub fn as_slice(&self) -> &[u8]
        ensures value { result.now ≡ self.now }
        ensures is_payload { IsPayload self.now }
    {
        self.text.as_slice()
    }
}

impl Clone for Payload {
    ghost is_clone = { λ payload copy. copy ≡ payload };

    fn clone(&self) -> Result<Payload, AllocError> {
        let text = self.text.clone()?;
        Ok(Payload { text })
    }
}
