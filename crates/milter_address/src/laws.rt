//! What holds of canonical addresses and of domains.

ghost use Rattle.std.specs.Prelude.{◌≡◌, ◌∷◌, ◌||◌, ℕ, List, Some, nat_eq};
ghost use Rattle.std.specs.List.{ends_with};
ghost use Rattle.std.specs.Str.{bytes_eq, str_to_ascii_lowercase};
ghost use Rattle.milter_address.specs.Address.{bare, canonical_address, domain_of};
ghost use Rattle.milter_address.specs.Domain.{is_under};
ghost use Rattle.milter_address.specs.Mailbox.{Mailbox, path_mailbox};

/// A canonical address is its own canonical form. Two mailboxes have one canonical form only where they are the same in
/// lower case: the same content of the local part and the same domain. The domain of a canonical address is that of the
/// mailbox.
pub fn canonical_addresses()
    ensures again { (text : List ℕ) → canonical_address (canonical_address text) ≡ canonical_address text }
    ensures same { (first second : List ℕ) (a b : Mailbox)
        → path_mailbox (bare (str_to_ascii_lowercase first)) ≡ Some a
        → path_mailbox (bare (str_to_ascii_lowercase second)) ≡ Some b
        → canonical_address first ≡ canonical_address second → a ≡ b }
    ensures domain { (text : List ℕ) (box : Mailbox) → path_mailbox (bare (str_to_ascii_lowercase text)) ≡ Some box
        → domain_of (canonical_address text) ≡ box.domain }
{}

/// A domain is under its parent exactly where it is the parent, or ends with a dot and the parent.
pub fn domains_by_bytes()
    ensures { (domain parent : List ℕ) → is_under domain parent
        ≡ (bytes_eq domain parent || ends_with nat_eq domain (46 ∷ parent)) }
{}
