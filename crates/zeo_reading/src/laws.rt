//! The law of payloads. A law is the contract of a function that does nothing.

ghost use Rattle.zeo_reading.specs.Reading.{AreReadBack};

/// The payload of a message of a row is read as this message, so each payload is of one message at most.
pub fn payloads_are_read_back()
    ensures { AreReadBack }
{}
