//! What the first mark tells.
ghost use Rattle.std.specs.Prelude.{◌≡◌, ℕ, true, List};
ghost use mathlib.Core.List.{IsPrefix};
ghost use Rattle.doc_items.specs.Maps.{Key};
ghost use Rattle.shard_marks.specs.declared.mark.Mark.{Mark};
ghost use Rattle.shard_marks.specs.Marks.{is_founded, founded};

/// Whoever has seen the first mark of a history knows whose shard it is, and its number.
#[tactic(auto, using(crate::proofs::Founded::founded_is))]
pub fn the_first_mark_tells_whose_shard_it_is()
    ensures { (d : Key) (k : ℕ) (e : Key) (j : ℕ) (ms seen : List Mark) → is_founded d k seen ≡ true → IsPrefix seen (founded e j ms)
        → (e ≡ d) × (j ≡ k) }
{}
