//! What holds of waiting bytes, whoever keeps them.
ghost use Rattle.nats_outbuf.specs.Buffers.{PartsAreTaken};

/// Bytes that are taken in parts leave what is left when they are taken at once.
pub fn parts_are_taken()
    ensures { PartsAreTaken }
{}
