//! Macros that a command line gives.

ghost use Rattle.std.specs.Prelude.{IfSome};
ghost use Rattle.milter_command_line.specs.GivenMacro.{IsMacro};

use milter_wire::MacroStage;

/// A macro that a command line gives.
#[derive(Clone, Copy)]
pub struct GivenMacro<'a> {
    /// The stage whose macro it is.
    pub stage: MacroStage,
    /// Its name, not empty.
    pub name: &'a str,
    /// Its value.
    pub value: &'a str,
}

impl<'a> GivenMacro<'a> {
    /// The macro that a text gives: `STAGE:NAME=VALUE`, with the word of a stage, a name that isn't empty and has no
    /// `=`, and a value, which may be empty. None where the text has another form.
    pub fn parse(text: &'a str) -> Option<GivenMacro<'a>>
        ensures { IfSome result (IsMacro text.entry.now) }
    {
        let (stage, rest) = text.split_once(':')?;
        let stage = MacroStage::from_name(stage.as_bytes())?;
        let (name, value) = rest.split_once('=')?;
        if name.is_empty() {
            return None;
        }
        Some(GivenMacro { stage, name, value })
    }
}
