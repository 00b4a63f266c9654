//! What is said of the line that gives a file its form, and of what takes such a line.

use milter_rules::{FileForm, Notes, Span, is_form_line};
use milter_text::Word;
use milter_wire::NoMemory;

/// What a word of the second form is said to need in a file of the first.
const NEEDS_FORM: &[u8] = b" needs rules 2 as the first line of the file";

/// What is said beside that `not` needs the second form.
pub(crate) const WITHOUT_NOT: &[u8] = b"; lacks TEXT holds where has TEXT doesn't";

/// What is said beside that groups of conditions, and several texts, need the second form.
pub(crate) const WITHOUT_OR: &[u8] = b"; without it write two rules";

/// Says what is wrong with a line that begins with `rules`, in a file of this form.
pub(crate) fn say_bad_form_line(
    notes: &mut Notes<'_>,
    form: FileForm,
    words: &[Word],
) -> Result<(), NoMemory> {
    let text: &[u8] = if !is_form_line(words) {
        b"rules is followed by the number 2, and by nothing else"
    } else if form == FileForm::Second {
        b"rules is given a second time; it is given once in a file"
    } else {
        b"rules 2 is due before all other lines"
    };
    notes.say(&[Span::Plain(text)])
}

/// Says that the word is known in files of the second form alone; `end` is what is said beside that.
pub(crate) fn say_needs_form<'x>(
    notes: &mut Notes<'_>,
    word: Span<'x>,
    end: &'x [u8],
) -> Result<(), NoMemory> {
    notes.say(&[word, Span::Plain(NEEDS_FORM), Span::Plain(end)])
}
