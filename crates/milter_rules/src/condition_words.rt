//! The conditions in the words of a rule's line: `when COND and COND or COND ..`, with `FIELD TEST TEXT ..`, `address
//! within TEXT ..`, `size over NUMBER` or `FIELD in NAME` for each, perhaps with `not` before it, and with `any-case`
//! after a test of texts.

ghost use Rattle.std.specs.Prelude.{◌≡◌, ◌++◌, ◌∷◌, IfOk, IfSome, List, codes, option_map, true};
ghost use Rattle.std.specs.List.{list_all};
ghost use Rattle.std.specs.Option.{IsSomeAnd};
ghost use Rattle.milter_text.specs.declared.word.Word.{Word};
ghost use Rattle.milter_text.specs.WordValues.{keyword};
ghost use Rattle.milter_filter_rules.specs.declared.rule.Condition.{Condition};
ghost use Rattle.milter_rules.specs.ConditionWords.{check_at, check_on, condition_at, conditions_words, field_at, first_text, flag_at};
ghost use Rattle.milter_rules.specs.ConditionWords.{field_check_at, has_plain_words, in_list, joint_at, limit_of, lone_field, measure_in, named_field, networks_after};
ghost use Rattle.milter_rules.specs.ConditionWords.{over_at, path_field, test_in, test_on, texts_at, words_after};

use itoa::Buffer;
use milter_filter_rules::{
    Check, Condition, Conditions, Field, Joint, Measure, PathPart, Test, TextCheck, Texts,
};
use milter_text::Word;
use milter_wire::{NoMemory, Text};
use std::alloc::Global;

/// The conditions that the words begin with, and the words after `do`, which comes after them; none where the words
/// don't have this form.
pub(crate) fn conditions_in<'a>(
    alloc: Global,
    words: &'a [Word],
) -> Result<Option<(Conditions, &'a [Word])>, NoMemory>
    ensures found { IfOk result (λ found. IfSome found (λ x.
        words.now ≡ conditions_words x.0 ++ keyword (codes "do") ∷ x.1.now)) }
    ensures only { (conditions : List Condition) (rest : List Word) →
        words.now ≡ conditions_words conditions ++ keyword (codes "do") ∷ rest →
        list_all (λ c. has_plain_words c.check) conditions ≡ true →
        IfOk result (λ found. IsSomeAnd found (λ x. (x.0 ≡ conditions) × (x.1.now ≡ rest))) }
{
    let mut conditions = Vec::new(alloc);
    let mut rest = words;
    let mut is_first = true;
    while let Some((joint, after)) = joint_in(is_first, rest) {
        let Some((condition, after)) = condition_in(alloc, joint, after)? else {
            return Ok(None);
        };
        conditions.push(condition)?;
        rest = after;
        is_first = false;
    }
    match words_after(b"do", rest) {
        Some(action) => Ok(Some((Conditions::new(conditions), action))),
        None => Ok(None),
    }
}

/// How the next condition is joined by the word that the words begin with, and the words after it.
fn joint_in(is_first: bool, words: &[Word]) -> Option<(Joint, &[Word])>
    ensures { option_map (λ x. (x.0, x.1.now)) result ≡ joint_at is_first words.now }
{
    let and: &[u8] = if is_first { b"when" } else { b"and" };
    if let Some(rest) = words_after(and, words) {
        return Some((Joint::And, rest));
    }
    Some((Joint::Or, words_after(b"or", words)?))
}

/// The words after the keyword that they begin with; none where they begin with another word.
pub(crate) fn words_after<'a>(keyword: &[u8], words: &'a [Word]) -> Option<&'a [Word]>
    ensures { option_map (λ rest. rest.now) result ≡ words_after keyword.now words.now }
{
    match words {
        [first, rest @ ..] if first.is_keyword(keyword) => Some(rest),
        _ => None,
    }
}

/// Whether the words begin with the keyword, and the words after it.
fn flag_in<'a>(keyword: &[u8], words: &'a [Word]) -> (bool, &'a [Word])
    ensures { (result.0, result.1.now) ≡ flag_at keyword.now words.now }
{
    match words_after(keyword, words) {
        Some(rest) => (true, rest),
        None => (false, words),
    }
}

/// The condition that the words begin with, which is joined so, and the words after it.
fn condition_in<'a>(
    alloc: Global,
    joint: Joint,
    words: &'a [Word],
) -> Result<Option<(Condition, &'a [Word])>, NoMemory>
    ensures { IfOk result (λ found. option_map (λ x. (x.0, x.1.now)) found ≡ condition_at joint words.now) }
{
    let (negated, rest) = flag_in(b"not", words);
    let Some((check, rest)) = check_in(alloc, rest)? else {
        return Ok(None);
    };
    let condition = Condition {
        joint,
        negated,
        check,
    };
    Ok(Some((condition, rest)))
}

/// The check that the words begin with, and the words after it.
fn check_in<'a>(alloc: Global, words: &'a [Word]) -> Result<Option<(Check, &'a [Word])>, NoMemory>
    ensures { IfOk result (λ found. option_map (λ x. (x.0, x.1.now)) found ≡ check_at words.now) }
{
    let [first, rest @ ..] = words else {
        return Ok(None);
    };
    if let Some(measure) = measure_in(first) {
        return Ok(over_in(measure, rest));
    }
    match networks_after(first, rest) {
        Some(networks) => {
            let (networks, rest) = texts_in(alloc, networks)?;
            Ok(Some((Check::Within(networks), rest)))
        }
        None => field_check_in(alloc, words),
    }
}

/// The words after `address within`.
fn networks_after<'a>(first: &Word, rest: &'a [Word]) -> Option<&'a [Word]>
    ensures { option_map (λ networks. networks.now) result ≡ networks_after first.now rest.now }
{
    if first.is_keyword(b"address") {
        words_after(b"within", rest)
    } else {
        None
    }
}

/// The number of this word.
fn measure_in(word: &Word) -> Option<Measure>
    ensures { result ≡ measure_in word.now }
{
    if word.is_keyword(b"size") {
        Some(Measure::Size)
    } else if word.is_keyword(b"rcpts") {
        Some(Measure::Rcpts)
    } else {
        None
    }
}

/// The check of the number that the words after it begin with, and the words after that.
fn over_in(measure: Measure, words: &[Word]) -> Option<(Check, &[Word])>
    ensures { option_map (λ x. (x.0, x.1.now)) result ≡ over_at measure words.now }
{
    match words_after(b"over", words)? {
        [limit, rest @ ..] => Some((Check::Over(measure, limit_in(limit)?), rest)),
        [] => None,
    }
}

/// The limit that the word is, which has no superfluous zeros.
fn limit_in(word: &Word) -> Option<u32>
    ensures { result ≡ limit_of word.now }
{
    let limit = u32::try_from(word.number()?).ok()?;
    let mut digits = Buffer::new();
    if word.is_keyword(digits.format(u64::from(limit)).as_bytes()) {
        Some(limit)
    } else {
        None
    }
}

/// The check of a field that the words begin with, and the words after it.
fn field_check_in<'a>(
    alloc: Global,
    words: &'a [Word],
) -> Result<Option<(Check, &'a [Word])>, NoMemory>
    ensures { IfOk result (λ found. option_map (λ x. (x.0, x.1.now)) found ≡ field_check_at words.now) }
{
    match field_in(alloc, words)? {
        Some((field, rest)) => check_on(alloc, field, rest),
        None => Ok(None),
    }
}

/// The check of this field that the words begin with, and the words after it.
fn check_on<'a>(
    alloc: Global,
    field: Field,
    words: &'a [Word],
) -> Result<Option<(Check, &'a [Word])>, NoMemory>
    ensures { IfOk result (λ found. option_map (λ x. (x.0, x.1.now)) found ≡ check_on field words.now) }
{
    let [test, rest @ ..] = words else {
        return Ok(None);
    };
    if test.is_keyword(b"in") {
        in_list(alloc, field, rest)
    } else {
        test_on(alloc, field, test, rest)
    }
}

/// The check of this field with the name of a list that the words begin with, and the words after it.
fn in_list<'a>(
    alloc: Global,
    field: Field,
    words: &'a [Word],
) -> Result<Option<(Check, &'a [Word])>, NoMemory>
    ensures { IfOk result (λ found. option_map (λ x. (x.0, x.1.now)) found ≡ in_list field words.now) }
{
    let [name, rest @ ..] = words else {
        return Ok(None);
    };
    let Some(name) = name.keyword() else {
        return Ok(None);
    };
    let name = Text::copy_of(alloc, name)?;
    Ok(Some((Check::In(field, name), rest)))
}

/// The check of this field by the word of a test and the texts that the words begin with, and the words after them.
fn test_on<'a>(
    alloc: Global,
    field: Field,
    test: &Word,
    rest: &'a [Word],
) -> Result<Option<(Check, &'a [Word])>, NoMemory>
    ensures { IfOk result (λ found. option_map (λ x. (x.0, x.1.now)) found ≡ test_on field test.now rest.now) }
{
    let Some(test) = test_in(test) else {
        return Ok(None);
    };
    let (any_case, rest) = flag_in(b"any-case", rest);
    let (texts, rest) = texts_in(alloc, rest)?;
    let check = TextCheck {
        field,
        test,
        any_case,
        texts,
    };
    Ok(Some((Check::Text(check), rest)))
}

/// Copies of the texts that the words begin with, and the words after them.
fn texts_in<'a>(alloc: Global, words: &'a [Word]) -> Result<(Texts, &'a [Word]), NoMemory>
    ensures { IfOk result (λ found. (found.0, found.1.now) ≡ texts_at words.now) }
{
    let mut texts = Vec::new(alloc);
    let mut rest = words;
    while let Some((text, after)) = first_text(rest) {
        texts.push(Text::copy_of(alloc, text.as_slice())?)?;
        rest = after;
    }
    Ok((Texts::new(texts), rest))
}

/// The text that the words begin with, and the words after it.
fn first_text(words: &[Word]) -> Option<(&Text, &[Word])>
    ensures { option_map (λ x. (x.0.now, x.1.now)) result ≡ first_text words.now }
{
    match words {
        [word, rest @ ..] => Some((word.quoted_text()?, rest)),
        [] => None,
    }
}

/// The field that the words begin with, and the words after it.
fn field_in<'a>(alloc: Global, words: &'a [Word]) -> Result<Option<(Field, &'a [Word])>, NoMemory>
    ensures { IfOk result (λ found. option_map (λ x. (x.0, x.1.now)) found ≡ field_at words.now) }
{
    let [first, rest @ ..] = words else {
        return Ok(None);
    };
    if let Some(field) = lone_field(first) {
        return Ok(Some((field, rest)));
    }
    let [name, rest @ ..] = rest else {
        return Ok(None);
    };
    let Some(name) = name.quoted_text() else {
        return Ok(None);
    };
    match named_field(alloc, first, name)? {
        Some(field) => Ok(Some((field, rest))),
        None => Ok(None),
    }
}

/// The field of this word, if it has no name.
fn lone_field(word: &Word) -> Option<Field>
    ensures { result ≡ lone_field word.now }
{
    if word.is_keyword(b"host") {
        Some(Field::Host)
    } else if word.is_keyword(b"address") {
        Some(Field::Address)
    } else if word.is_keyword(b"helo") {
        Some(Field::Helo)
    } else if word.is_keyword(b"body") {
        Some(Field::Body)
    } else {
        path_field(word)
    }
}

/// The field of this word, if it is a part of a sender or of recipients.
fn path_field(word: &Word) -> Option<Field>
    ensures { result ≡ path_field word.now }
{
    if word.is_keyword(b"sender") {
        Some(Field::Sender(PathPart::Sent))
    } else if word.is_keyword(b"sender-address") {
        Some(Field::Sender(PathPart::Address))
    } else if word.is_keyword(b"sender-domain") {
        Some(Field::Sender(PathPart::Domain))
    } else if word.is_keyword(b"rcpt") {
        Some(Field::Rcpt(PathPart::Sent))
    } else if word.is_keyword(b"rcpt-address") {
        Some(Field::Rcpt(PathPart::Address))
    } else if word.is_keyword(b"rcpt-domain") {
        Some(Field::Rcpt(PathPart::Domain))
    } else if word.is_keyword(b"recipients") {
        Some(Field::Recipients(PathPart::Sent))
    } else if word.is_keyword(b"recipients-address") {
        Some(Field::Recipients(PathPart::Address))
    } else if word.is_keyword(b"recipients-domain") {
        Some(Field::Recipients(PathPart::Domain))
    } else {
        None
    }
}

/// The field of this word, with the name.
fn named_field(alloc: Global, word: &Word, name: &Text) -> Result<Option<Field>, NoMemory>
    ensures { IfOk result (λ field. field ≡ named_field word.now name.now) }
{
    if word.is_keyword(b"header") {
        Ok(Some(Field::Header(Text::copy_of(alloc, name.as_slice())?)))
    } else if word.is_keyword(b"macro") {
        Ok(Some(Field::Macro(Text::copy_of(alloc, name.as_slice())?)))
    } else {
        Ok(None)
    }
}

/// The test of this word.
fn test_in(word: &Word) -> Option<Test>
    ensures { result ≡ test_in word.now }
{
    if word.is_keyword(b"is") {
        Some(Test::Is)
    } else if word.is_keyword(b"has") {
        Some(Test::Has)
    } else if word.is_keyword(b"lacks") {
        Some(Test::Lacks)
    } else if word.is_keyword(b"begins") {
        Some(Test::Begins)
    } else if word.is_keyword(b"ends") {
        Some(Test::Ends)
    } else if word.is_keyword(b"like") {
        Some(Test::Like)
    } else if word.is_keyword(b"under") {
        Some(Test::Under)
    } else {
        None
    }
}
