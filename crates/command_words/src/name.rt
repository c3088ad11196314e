// Names as values.
ghost use Rattle.std.specs.Prelude.{◌≡◌, ◌≢◌, ℕ, List, Bool, true, false, Some, None, option_map, IfOk, IfErr};
ghost use Rattle.command_words.specs.Commands.{checked};

use crate::command::WordsFault;
use crate::values::is_value;
use std::alloc::Global;
use wave_base::{Address, BaseFault, Domain, WaveletName};

/// A name that a value may be.
pub(crate) trait Name: Drop {
    /// Whether these bytes are in its grammar.
    ghost is_name: { List ℕ → Bool };

    /// Its bytes.
    ghost bytes: { Self → List ℕ };

    /// The name of this text. Refusals: `Usage` where the text isn't in the grammar, and `Memory`.
    fn parsed(alloc: Global, text: &str) -> Result<Self, WordsFault>
    where
        Self: Sized,
        ensures same { IfOk result (λ n. bytes n ≡ text.now) }
        ensures good { IfOk result (λ _. is_name text.now ≡ true) }
        ensures refused { IfErr result (λ e. e ≡ WordsFault.Usage → is_name text.now ≡ false) };
}

impl Name for Address {
    ghost use Rattle.wave_base.specs.Grammar.{is_address};

    ghost is_name = { is_address };

    ghost bytes = { λ n. n };

    fn parsed(alloc: Global, text: &str) -> Result<Address, WordsFault> {
        match Address::parse(alloc, text) {
            Ok(name) => Ok(name),
            Err(BaseFault::Memory) => Err(WordsFault::Memory),
            Err(_) => Err(WordsFault::Usage),
        }
    }
}

impl Name for Domain {
    ghost use Rattle.wave_base.specs.Grammar.{is_domain};

    ghost is_name = { is_domain };

    ghost bytes = { λ n. n };

    fn parsed(alloc: Global, text: &str) -> Result<Domain, WordsFault> {
        match Domain::parse(alloc, text) {
            Ok(name) => Ok(name),
            Err(BaseFault::Memory) => Err(WordsFault::Memory),
            Err(_) => Err(WordsFault::Usage),
        }
    }
}

impl Name for WaveletName {
    ghost use Rattle.wave_base.specs.Grammar.{is_wavelet_name};

    ghost is_name = { is_wavelet_name };

    ghost bytes = { λ n. n };

    fn parsed(alloc: Global, text: &str) -> Result<WaveletName, WordsFault> {
        match WaveletName::parse(alloc, text) {
            Ok(name) => Ok(name),
            Err(BaseFault::Memory) => Err(WordsFault::Memory),
            Err(_) => Err(WordsFault::Usage),
        }
    }
}

/// The name that a value is. Refusals: `Usage` where there is none, and `Memory`.
pub(crate) fn name_of<N: Name>(alloc: Global, value: Option<&str>) -> Result<N, WordsFault>
    ensures ok { IfOk result (λ n. checked N.is_name (option_map (λ s. s.now) value.entry) ≡ Some (N.bytes n)) }
    ensures refused { IfErr result (λ e. e ≡ WordsFault.Usage → checked N.is_name (option_map (λ s. s.now) value.entry) ≡ None) }
{
    let Some(text) = value else {
        return Err(WordsFault::Usage);
    };
    if is_value(text) {
        N::parsed(alloc, text)
    } else {
        Err(WordsFault::Usage)
    }
}
