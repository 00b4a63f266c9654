//! Numbers for the names of header fields, by which an index finds them.

ghost use Rattle.std.specs.Prelude.{◌≡◌, ◌+◌, ℕ, List, IfOk, Some, unwrap_or};
ghost use Rattle.std.specs.List.{filter_map};
ghost use Rattle.std.specs.Map.{update};
ghost use Rattle.std.specs.Str.{bytes_eq, str_to_ascii_lowercase};
ghost use Rattle.milter_message.specs.NameNumbers.{HasNumbers, changed_name, found, left_after, number_for, number_of, numbers_of};

use crate::edit::Edit;
use milter_wire::{NoMemory, Text};
use std::alloc::Global;
use std::collections::BTreeMap;

/// Names in lower case, each with a number of its own. 0 is the number of all other names.
pub(crate) type NameNumbers<'a> = BTreeMap<&'a [u8], u32>;

/// Numbers for names, and those of a list of names.
#[derive(Debug, Drop)]
pub(crate) struct NumberedNames<'a> {
    pub(crate) numbers: NameNumbers<'a>,
    /// The number of each name, in the order of the names.
    pub(crate) of_names: Vec<u32>,
}

/// The names of the fields that these edits change or delete, in lower case.
pub(crate) fn changed_names(alloc: Global, edits: &[Edit]) -> Result<Vec<Text>, NoMemory>
    ensures { IfOk result (λ names. names.items ≡ filter_map changed_name edits.now) }
{
    let mut names = Vec::new(alloc);
    for edit in edits {
        if let Edit::ChangeHeader { header, .. } = edit {
            names.push(lower_case(alloc, header.name.as_slice())?)?;
        }
    }
    Ok(names)
}

/// The name with its ASCII letters in lower case.
fn lower_case(alloc: Global, name: &[u8]) -> Result<Text, NoMemory>
    ensures { IfOk result (λ lower. lower ≡ str_to_ascii_lowercase name.now) }
{
    Ok(Text::new(name.to_ascii_lowercase(alloc)?))
}

/// Numbers for these names, which are in lower case: 1, 2, 3 .. in the order in which they first stand here. Each name
/// is looked up once.
pub(crate) fn name_numbers(alloc: Global, names: &[Text]) -> Result<NumberedNames<'_>, NoMemory>
    ensures has { IfOk result (λ numbered. HasNumbers names.now numbered.numbers) }
    ensures of_names { IfOk result (λ numbered. numbered.of_names.items ≡ numbers_of numbered.numbers names.now) }
{
    let mut numbers = BTreeMap::new(alloc);
    let mut of_names = Vec::with_capacity(alloc, names.len())?;
    let mut most: u32 = 0;
    for name in names {
        let number = number_or_put(&mut numbers, name.as_slice(), next(most)?)?;
        most = most.max(number);
        of_names.push(number)?;
    }
    Ok(NumberedNames { numbers, of_names })
}

/// The number of a name in lower case. One that has none gets this new one; one that has keeps its own, which is put
/// back.
fn number_or_put<'a>(
    numbers: &mut NameNumbers<'a>,
    name: &'a [u8],
    new: u32,
) -> Result<u32, NoMemory>
    ensures number { IfOk result (λ number. number ≡ unwrap_or (found numbers.old name.now) new) }
    ensures put { IfOk result (λ number. (text : List ℕ) →
        found numbers.new text ≡ update bytes_eq (found numbers.old) name.now (Some number) text) }
{
    match numbers.insert(name, new)? {
        None => Ok(new),
        Some(old) => {
            numbers.insert(name, old)?;
            Ok(old)
        }
    }
}

/// The number after this one.
fn next(number: u32) -> Result<u32, NoMemory>
    ensures { IfOk result (λ next. next ≡ number + 1) }
{
    match number.checked_add(1) {
        Some(next) => Ok(next),
        None => Err(NoMemory),
    }
}

/// The number of a name, in any case.
pub(crate) fn number_of(
    alloc: Global,
    numbers: &NameNumbers<'_>,
    name: &[u8],
) -> Result<u32, NoMemory>
    ensures { IfOk result (λ number. number ≡ number_of numbers.now name.now) }
{
    let lower = lower_case(alloc, name)?;
    Ok(match numbers.get(lower.as_slice()) {
        Some(number) => *number,
        None => 0,
    })
}

/// The number of the name of the field that the edit changes, the first of those left, and those left after it. An edit
/// that changes none takes no number, and has 0.
pub(crate) fn take_number<'a>(edit: &Edit, left: &'a [u32]) -> (u32, &'a [u32])
    ensures number { result.0 ≡ number_for edit.now left.now }
    ensures left { result.1.now ≡ left_after edit.now left.now }
{
    match edit {
        Edit::ChangeHeader { .. } => match left {
            [number, rest @ ..] => (*number, rest),
            [] => (0, left),
        },
        _ => (0, left),
    }
}
