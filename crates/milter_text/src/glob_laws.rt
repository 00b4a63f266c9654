//! Laws of patterns, each the contract of a function that does nothing.

ghost use Rattle.std.specs.Prelude.{◌≡◌, ◌≢◌, ◌↔◌, ◌∷◌, ◌++◌, [], List, length, true, ℕ};
ghost use Rattle.std.specs.Str.{bytes_eq, str_eq_ignore_ascii_case};
ghost use Rattle.milter_text.specs.declared.glob.TextCase.{TextCase};
ghost use Rattle.milter_text.specs.declared.glob.TextCase.TheVariants.{Exact, Ignored};
ghost use Rattle.milter_text.specs.declared.glob.TheConstants.{ANY_RUN};
ghost use Rattle.milter_text.specs.Globs.{IsJoined, IsPlain, is_like, stands_for};

/// Two patterns, one after the other, stand for each value of the first with each value of the second after it, and for
/// no others.
pub fn joined_patterns()
    ensures joined { (case : TextCase) (first second before after : List ℕ) → is_like case first before ≡ true →
        is_like case second after ≡ true → is_like case (first ++ second) (before ++ after) ≡ true }
    ensures only { (case : TextCase) (first second value : List ℕ) → is_like case (first ++ second) value ≡ true →
        IsJoined case first second value }
{}

/// A pattern of no bytes stands for no bytes, `*` for any, and each other byte for one byte, which it stands for.
pub fn short_patterns()
    ensures none { (case : TextCase) (value : List ℕ) → (is_like case [] value ≡ true) ↔ (value ≡ []) }
    ensures run { (case : TextCase) (value : List ℕ) → is_like case (ANY_RUN ∷ []) value ≡ true }
    ensures byte { (case : TextCase) (symbol byte : ℕ) → symbol ≢ ANY_RUN →
        is_like case (symbol ∷ []) (byte ∷ []) ≡ stands_for case symbol byte }
    ensures one { (case : TextCase) (symbol : ℕ) (value : List ℕ) → symbol ≢ ANY_RUN →
        is_like case (symbol ∷ []) value ≡ true → length value ≡ 1 }
{}

/// A pattern with neither `*` nor `?` stands for itself alone, or for what is it but for the case of letters.
pub fn plain_patterns()
    ensures exact { (text value : List ℕ) → IsPlain text → is_like Exact text value ≡ bytes_eq value text }
    ensures ignored { (text value : List ℕ) → IsPlain text →
        is_like Ignored text value ≡ str_eq_ignore_ascii_case value text }
{}
