//! The stages that have macros.

ghost use Rattle.std.specs.Prelude.{◌≡◌};
ghost use Rattle.milter_wire.specs.MacroStages.{macro_stage_name, macro_stage_named, macro_stage_number};

/// The stage of a symbol list: when a client has connected. Source: mfapi.h.
pub const SMFIM_CONNECT: u32 = 0;

/// The stage of a symbol list: HELO or EHLO. Source: mfapi.h.
pub const SMFIM_HELO: u32 = 1;

/// The stage of a symbol list: the sender. Source: mfapi.h.
pub const SMFIM_ENVFROM: u32 = 2;

/// The stage of a symbol list: each recipient. Source: mfapi.h.
pub const SMFIM_ENVRCPT: u32 = 3;

/// The stage of a symbol list: DATA. Source: mfapi.h.
pub const SMFIM_DATA: u32 = 4;

/// The stage of a symbol list: the end of the message. Source: mfapi.h.
pub const SMFIM_EOM: u32 = 5;

/// The stage of a symbol list: the end of the header. Source: mfapi.h.
pub const SMFIM_EOH: u32 = 6;

/// A stage that has macros. Source: mfapi.h (SMFIM_CONNECT and those after it).
#[derive(Clone, Copy, Debug, PartialEq, Eq)]
pub enum MacroStage {
    /// A client has connected.
    Connect,
    /// The client has sent HELO or EHLO.
    Helo,
    /// The sender of a message.
    Mail,
    /// A recipient of the message.
    Rcpt,
    /// The client has sent DATA.
    DataCmd,
    /// The message has ended.
    Eom,
    /// The header has ended.
    Eoh,
}

impl MacroStage {
    /// All of them, in the order in which a session has them.
    pub const ALL: [MacroStage; 7] = [
        MacroStage::Connect,
        MacroStage::Helo,
        MacroStage::Mail,
        MacroStage::Rcpt,
        MacroStage::DataCmd,
        MacroStage::Eoh,
        MacroStage::Eom,
    ];

    /// The word of the stage in text files. Doesn't allocate.
    pub fn name(self) -> &'static [u8]
        ensures { result.now ≡ macro_stage_name self }
    {
        match self {
            MacroStage::Connect => b"connect",
            MacroStage::Helo => b"helo",
            MacroStage::Mail => b"mail",
            MacroStage::Rcpt => b"rcpt",
            MacroStage::DataCmd => b"data",
            MacroStage::Eom => b"eom",
            MacroStage::Eoh => b"eoh",
        }
    }

    /// The stage with this name, matched exactly; none where no stage has it. Doesn't allocate.
    pub fn from_name(name: &[u8]) -> Option<MacroStage>
        ensures { result ≡ macro_stage_named name.now }
    {
        MacroStage::ALL
            .iter()
            .copied()
            .find(|stage| name == stage.name())
    }

    /// The number of the stage in a symbol list. Doesn't allocate. Source: mfapi.h (SMFIM_CONNECT and those after
    /// it).
    pub fn number(self) -> u32
        ensures { result ≡ macro_stage_number self }
    {
        match self {
            MacroStage::Connect => SMFIM_CONNECT,
            MacroStage::Helo => SMFIM_HELO,
            MacroStage::Mail => SMFIM_ENVFROM,
            MacroStage::Rcpt => SMFIM_ENVRCPT,
            MacroStage::DataCmd => SMFIM_DATA,
            MacroStage::Eom => SMFIM_EOM,
            MacroStage::Eoh => SMFIM_EOH,
        }
    }
}
