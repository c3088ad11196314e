// The names of a load.
ghost use Rattle.std.specs.Prelude.{◌≡◌, true, IfOk};
ghost use Rattle.wave_base.specs.Grammar.{is_address, is_id, is_wavelet_name};
ghost use Rattle.load_script.specs.Names.{the_wavelet, the_document, user0, user1, user2, user3};

use doc_items::Memory;
use std::alloc::{AllocError, Global};
use wave_base::{Address, BaseFault, DocumentName, WaveletName};

// The address of a text that is one.
fn parsed_address(alloc: Global, text: &str) -> Result<Address, Memory>
    requires { is_address text.now ≡ true }
    ensures { IfOk result (λ a. a ≡ text.now) }
{
    match Address::parse(alloc, text) {
        Ok(address) => Ok(address),
        Err(BaseFault::Memory) => Err(AllocError),
        Err(_) => unreachable!(),
    }
}

// The name of a wavelet, of a text that is one.
fn parsed_wavelet(alloc: Global, text: &str) -> Result<WaveletName, Memory>
    requires { is_wavelet_name text.now ≡ true }
    ensures { IfOk result (λ n. n ≡ text.now) }
{
    match WaveletName::parse(alloc, text) {
        Ok(name) => Ok(name),
        Err(BaseFault::Memory) => Err(AllocError),
        Err(_) => unreachable!(),
    }
}

// The name of a document, of a text that is one.
fn parsed_document(alloc: Global, text: &str) -> Result<DocumentName, Memory>
    requires { is_id text.now ≡ true }
    ensures { IfOk result (λ n. n ≡ text.now) }
{
    match DocumentName::parse(alloc, text) {
        Ok(name) => Ok(name),
        Err(BaseFault::Memory) => Err(AllocError),
        Err(_) => unreachable!(),
    }
}

/// The name of the wavelet.
pub(crate) fn wavelet(alloc: Global) -> Result<WaveletName, Memory>
    ensures { IfOk result (λ n. n ≡ the_wavelet) }
{
    parsed_wavelet(alloc, "load.com/w/load.com/conv+root")
}

/// The name of the document.
pub(crate) fn document(alloc: Global) -> Result<DocumentName, Memory>
    ensures { IfOk result (λ n. n ≡ the_document) }
{
    parsed_document(alloc, "b+1")
}

/// The address of user 0.
pub(crate) fn user0(alloc: Global) -> Result<Address, Memory>
    ensures { IfOk result (λ a. a ≡ user0) }
{
    parsed_address(alloc, "u0@load.com")
}

/// The address of user 1.
pub(crate) fn user1(alloc: Global) -> Result<Address, Memory>
    ensures { IfOk result (λ a. a ≡ user1) }
{
    parsed_address(alloc, "u1@load.com")
}

/// The address of user 2.
pub(crate) fn user2(alloc: Global) -> Result<Address, Memory>
    ensures { IfOk result (λ a. a ≡ user2) }
{
    parsed_address(alloc, "u2@load.com")
}

/// The address of user 3.
pub(crate) fn user3(alloc: Global) -> Result<Address, Memory>
    ensures { IfOk result (λ a. a ≡ user3) }
{
    parsed_address(alloc, "u3@load.com")
}
