ghost use Rattle.std.specs.Prelude.{◌≡◌};
ghost use Rattle.wavelet_op.specs.Deltas.{DeltaOf};
ghost use Rattle.wavelet_codec.specs.Spelling.{delta_bytes, IsDelta, IsSameDelta};

/// The law of deltas as bytes: two deltas with the same bytes have the same id, version, time and operations.
#[tactic(auto, using(crate::proofs::Deltas::alike))]
pub fn deltas_differ()
    ensures { (a b : DeltaOf) → IsDelta a → IsDelta b → delta_bytes a ≡ delta_bytes b → IsSameDelta a b }
{}
