ghost use Rattle.std.specs.Prelude.{◌≡◌, ◌↔◌, ℕ, List, true};
ghost use Rattle.wave_base.specs.Grammar.{is_domain, is_address, is_wavelet_name, domain_of, host_of};
ghost use Rattle.wave_base.specs.Relations.{IsDomain, IsAddress, IsWaveletName};

/// The law of domains: they are labels with a dot between each two.
#[tactic(auto, using(crate::proofs::Made::domain_law))]
pub fn domains_are_labels()
    ensures { (t : List ℕ) → (is_domain t ≡ true) ↔ IsDomain t }
{}

/// The law of addresses: each is a user, `@` and its domain, and whatever is put together so is an address of that domain.
#[tactic(auto, using(crate::proofs::Made::address_apart))]
pub fn addresses_have_two_parts()
    ensures apart { (t : List ℕ) → is_address t ≡ true → (user : List ℕ) × IsAddress user (domain_of t) t }
    ensures made { (user domain t : List ℕ) → IsAddress user domain t → (is_address t ≡ true) × (domain_of t ≡ domain) }
{}

/// The law of wavelet names: each is two domains with an id after each, the second domain being the host; and whatever is put
/// together so is a name with that host.
#[tactic(auto, using(crate::proofs::Made::name_apart))]
pub fn wavelet_names_have_four_parts()
    ensures apart { (t : List ℕ) → is_wavelet_name t ≡ true → (wave_domain wave_id id : List ℕ)
        × IsWaveletName wave_domain wave_id (host_of t) id t }
    ensures made { (wave_domain wave_id domain id t : List ℕ) → IsWaveletName wave_domain wave_id domain id t → (is_wavelet_name t ≡ true)
        × (host_of t ≡ domain) }
{}
