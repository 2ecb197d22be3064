//! What decoders make of whole lists of half-bits, each heard by a call of `hear`.
ghost use Rattle.std.specs.Prelude.{ℕ, List};
ghost use Rattle.decoder_node.specs.Decoder.{AccessoryDecoder, LocoDecoder};
ghost use Rattle.decoder_node.specs.Hearing.{Receives, heard_all};
ghost use Rattle.decoder_node.specs.Obey.{obeyed};
ghost use Rattle.decoder_node.specs.Switched.{switched};

/// A decoder with no packet under way that hears the halves of a wave, one after another, obeys its
/// packet; any decoder that hears them has no packet under way then.
pub fn waves_are_obeyed()
    ensures loco { (old : LocoDecoder) (halves : List ℕ)
        → Receives obeyed old halves (heard_all obeyed old halves) }
    ensures accessory { (old : AccessoryDecoder) (halves : List ℕ)
        → Receives switched old halves (heard_all switched old halves) }
{
    decoder_rx::laws::complete();
    decoder_rx::laws::settles();
}
