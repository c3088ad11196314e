ghost use Rattle.std.specs.Prelude.{◌≡◌, ◌≤◌, ◌==◌, length, true, IfOk, IfErr};
ghost use Rattle.std.specs.Cmp.{partial_order_from_own_ties};
ghost use Rattle.std.specs.Cmp.Lexicographic.{slice_cmp, pointwise};
ghost use Rattle.std.specs.Cmp.Rules.{comparing, hashing};
ghost use Rattle.std.specs.Ordering.{nat_cmp, as_partial_cmp};
ghost use Rattle.std.specs.Hash as fed;
ghost use Rattle.std.proofs.Common.{rules};
ghost use Rattle.wave_base.specs.Grammar.{is_wavelet_name, is_domain, host_of};
ghost use Rattle.wave_base.specs.Faults.{IsNameFault};

use crate::BaseFault;
use crate::grammar::is_wavelet_name;
use crate::scanner::{text_after, text_before};
use doc_items::Memory;
use std::alloc::Global;
use std::cmp::Ordering;
use std::hash::{Hash, Hasher};
use std::marker::Model;

/// The name of a wavelet: wave domain, wave id, wavelet domain and wavelet id, with `/` between each two. Seen as its bytes.
#[derive(Debug)]
pub struct WaveletName {
    text: String,
}

impl Drop for WaveletName {
    fn drop(self) {
        let WaveletName { text: _text } = self;
    }
}

impl Model for WaveletName {
    ghost use Rattle.std.specs.Prelude.{List, ℕ, string_bytes, ◌≡◌, true};
    ghost use Rattle.wave_base.specs.Grammar.{is_wavelet_name};

    ghost Value = { List ℕ };

    ghost view = { λ n. string_bytes n.text };

    ghost invariant = { λ n. is_wavelet_name (string_bytes n.text) ≡ true };
}

impl WaveletName {
    /// The name of this text; `BadName` exactly where the text isn't in the grammar.
    pub fn parse(alloc: Global, text: &str) -> Result<WaveletName, BaseFault>
        ensures same { IfOk result (λ n. n ≡ text.now) }
        ensures good { IfOk result (λ _. is_wavelet_name text.now ≡ true) }
        ensures refused { IfErr result (IsNameFault (is_wavelet_name text.now)) }
    {
        if !is_wavelet_name(text) {
            return Err(BaseFault::BadName);
        }
        let text = String::from_str(alloc, text)?;
        Ok(WaveletName { text })
    }

    /// The text, at most 769 bytes.
    pub fn text(&self) -> &str
        ensures same { result.now ≡ self.now }
        ensures good { is_wavelet_name self.now ≡ true }
        ensures bound { length self.now ≤ 769 }
    {
        self.text.as_str()
    }

    /// The wavelet domain, which hosts the wavelet, as a text.
    pub fn host(&self) -> &str
        ensures part { result.now ≡ host_of self.now }
        ensures good { is_domain result.now ≡ true }
    {
        let after_wave_domain = text_after(self.text.as_str(), '/');
        let wavelet = text_after(after_wave_domain, '/');
        text_before(wavelet, '/')
    }

    /// An equal name.
    pub fn copy(&self, alloc: Global) -> Result<WaveletName, Memory>
        ensures { IfOk result (λ n. n ≡ self.now) }
    {
        let text = String::from_str(alloc, self.text.as_str())?;
        Ok(WaveletName { text })
    }
}

impl PartialEq for WaveletName {
    ghost eq = { pointwise ◌==◌ };

    ghost laws = { Prim.search (comparing, rules) };

    fn eq(&self, other: &WaveletName) -> bool {
        self.text.as_str() == other.text.as_str()
    }
}

impl Eq for WaveletName {
    ghost laws = { Prim.search (comparing, rules) };
}

impl Ord for WaveletName {
    ghost cmp = { slice_cmp nat_cmp };

    ghost total = { Prim.search (comparing, rules) };

    ghost matches_partial_cmp = { Prim.search (comparing, rules) };

    ghost matches_eq = { Prim.search (comparing, rules) };

    fn cmp(&self, other: &WaveletName) -> Ordering {
        self.text.as_str().cmp(other.text.as_str())
    }
}

impl PartialOrd for WaveletName {
    ghost partial_cmp = { as_partial_cmp (slice_cmp nat_cmp) };

    ghost laws = { partial_order_from_own_ties (Prim.search (comparing, rules)) (Prim.search (comparing, rules)) };

    fn partial_cmp(&self, other: &WaveletName) -> Option<Ordering> {
        Some(self.cmp(other))
    }
}

impl Hash for WaveletName {
    ghost hash_input = { fed.str };

    ghost respects_eq = { Prim.search (hashing, rules) };

    fn hash<H: Hasher>(&self, state: &mut H) {
        self.text.as_str().hash(state);
    }
}
