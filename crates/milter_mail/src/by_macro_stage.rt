//! A value for each stage that has macros.

ghost use Rattle.std.specs.Prelude.{◌≡◌};
ghost use Rattle.std.specs.Borrow.{sem};
ghost use Rattle.milter_mail.specs.ByMacroStage.{BorrowsStage, at_stage};
ghost use Rattle.milter_mail.specs.Steps.{macros_at};

use milter_wire::{MacroStage, Pair, Pairs, Stage};

/// A value for each stage that has macros. Source: mfapi.h (SMFIM_CONNECT and those after it).
#[derive(Clone, Debug, PartialEq, Eq, Drop)]
pub struct ByMacroStage<T> {
    /// For the client.
    pub connect: T,
    /// For its greeting.
    pub helo: T,
    /// For the sender.
    pub mail: T,
    /// For each recipient.
    pub rcpt: T,
    /// For the client's DATA.
    pub data_cmd: T,
    /// For the end of a message.
    pub eom: T,
    /// For the end of the header.
    pub eoh: T,
}

impl<T> ByMacroStage<T> {
    /// The value of a stage. Doesn't allocate.
    pub fn at(&self, stage: MacroStage) -> &T
        ensures { result.now ≡ at_stage self.now stage }
    {
        match stage {
            MacroStage::Connect => &self.connect,
            MacroStage::Helo => &self.helo,
            MacroStage::Mail => &self.mail,
            MacroStage::Rcpt => &self.rcpt,
            MacroStage::DataCmd => &self.data_cmd,
            MacroStage::Eom => &self.eom,
            MacroStage::Eoh => &self.eoh,
        }
    }

    /// The value of a stage, to be changed; the values of the other stages stay. Doesn't allocate.
    pub fn at_mut(&mut self, stage: MacroStage) -> &mut T
        ensures* writes_back { sem 𝓛 (BorrowsStage T.row self.entry stage result) }
        ensures value { result.now ≡ at_stage self.old stage }
    {
        match stage {
            MacroStage::Connect => &mut self.connect,
            MacroStage::Helo => &mut self.helo,
            MacroStage::Mail => &mut self.mail,
            MacroStage::Rcpt => &mut self.rcpt,
            MacroStage::DataCmd => &mut self.data_cmd,
            MacroStage::Eom => &mut self.eom,
            MacroStage::Eoh => &mut self.eoh,
        }
    }
}

/// The macros of each stage that has some: what is sent before each command of the stage, of every message.
pub type Macros = ByMacroStage<Pairs>;

impl Macros {
    /// The macros that precede each command of a stage. A header field and a chunk of the body have none. Doesn't
    /// allocate.
    pub fn before(&self, stage: Stage) -> &[Pair]
        ensures { result.now ≡ macros_at self.now stage }
    {
        match stage.macro_stage() {
            Some(stage) => self.at(stage).as_slice(),
            None => &[],
        }
    }
}
