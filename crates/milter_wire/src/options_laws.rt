//! Laws of the names of bits, each the contract of a function that does nothing.

ghost use Rattle.std.specs.Prelude.{◌≡◌, ◌≢◌, List, ℕ, None, Some, codes};
ghost use Rattle.std.specs.Int.RustNames.{bit_and};
ghost use Rattle.bitflags.specs.Sets.{Row, known_bits};
ghost use Rattle.milter_wire.specs.Bits.{AreKnown, IsSetOf, actions_table, bits_named, names_in};
ghost use Rattle.milter_wire.specs.Bits.{names_text, protocol_table};

/// The set of bits that a text names, for any table of names.
pub fn names_of_bits()
    // `none` names the set without a bit.
    ensures none { (table : List Row) → bits_named table (codes "none") ≡ Some 0 }
    // Else each name between the bars is a bit's, and the set has their bits and no others.
    ensures names { (table : List Row) (text : List ℕ) (set : ℕ) → text ≢ codes "none" →
        bits_named table text ≡ Some set → IsSetOf table (names_in text) set }
    // A text that names no set has a name that is no bit's.
    ensures unknown { (table : List Row) (text : List ℕ) → text ≢ codes "none" →
        bits_named table text ≡ None → ¬ AreKnown table (names_in text) }
{}

/// The text of the names of a set's bits names that set, if each of its bits has a name.
pub fn texts_of_known_bits()
    ensures actions { (set : ℕ) → bit_and set (known_bits actions_table) ≡ set →
        bits_named actions_table (names_text actions_table set) ≡ Some set }
    ensures protocol { (set : ℕ) → bit_and set (known_bits protocol_table) ≡ set →
        bits_named protocol_table (names_text protocol_table set) ≡ Some set }
{}
