ghost use Rattle.std.specs.Prelude.{◌≡◌, ◌++◌, [], ℕ, List};
ghost use Rattle.doc_op.specs.declared.component.Component.{Component};
ghost use Rattle.doc_op.specs.Actions.{actions};
ghost use Rattle.op_codec.specs.Spelling.{spelling};
ghost use Rattle.op_codec.specs.Canonical.{canonical, IsSpelling};

/// The law of spellings: none is the beginning of another, so that bytes begin with one at most; and operations that mean the
/// same have the same.
#[tactic(auto, using(crate::proofs::Differ::apart, crate::proofs::Differ::alike))]
pub fn spellings_differ()
    ensures apart { (a b : List Component) (rest : List ℕ) → IsSpelling a → IsSpelling b → spelling a ++ rest ≡ spelling b → (a ≡ b)
        × (rest ≡ []) }
    ensures alike { (a b : List Component) → actions a ≡ actions b → canonical a ≡ canonical b }
{}
