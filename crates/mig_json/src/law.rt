//! The law that a save is read as one tree.
ghost use Rattle.mig_json.specs.Decode.{DecodeLaw};

/// The law between the decoding function and the relation: `decode_json` gives a tree exactly where the bytes are a save of it.
pub fn decoding()
    ensures { DecodeLaw }
{}
