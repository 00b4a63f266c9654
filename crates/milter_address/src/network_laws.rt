//! Laws of addresses and networks, each the contract of a function that does nothing.

ghost use Rattle.std.specs.Prelude.{◌≡◌, ◌+◌, ◌*◌, ◌^◌, ◌<◌, false, true, List, ℕ};
ghost use Rattle.milter_address.specs.declared.ip_address.Address.{Address};
ghost use Rattle.milter_address.specs.declared.ip_address.Address.TheVariants.{V4, V6};
ghost use Rattle.milter_address.specs.Addresses.{IsAddressText};
ghost use Rattle.milter_address.specs.Networks.{is_within};

/// A text writes one address at most.
pub fn written_addresses()
    ensures { (text : List ℕ) (a b : Address) → IsAddressText text a → IsAddressText text b → a ≡ b }
{}

/// Addresses and networks of two families.
pub fn families_apart()
    // An IPv4 address is within no network of IPv6, `::/0` among them,
    ensures ipv4 { (network prefix address : ℕ) → is_within (V6 network) prefix (V4 address) ≡ false }
    // and an IPv4-mapped address is within those of IPv4 that its IPv4 address is within.
    ensures mapped { (network prefix address : ℕ) → address < 2 ^ 32 →
        is_within (V4 network) prefix (V6 (0xffff * 2 ^ 32 + address)) ≡ is_within (V4 network) prefix (V4 address) }
{}

/// An address is within each network of its own, and a network with no fixed bits has each address of its family.
pub fn widest_networks()
    ensures own { (address : Address) (prefix : ℕ) → is_within address prefix address ≡ true }
    ensures ipv4 { (network address : ℕ) → network < 2 ^ 32 → address < 2 ^ 32 →
        is_within (V4 network) 0 (V4 address) ≡ true }
    ensures ipv6 { (network address : ℕ) → network < 2 ^ 128 → address < 2 ^ 128 →
        is_within (V6 network) 0 (V6 address) ≡ true }
{}
