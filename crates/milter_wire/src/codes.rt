//! The codes of packets, by their names in mfdef.h: SMFIC for commands, SMFIR for replies; SMFIA, the families of
//! clients; and SMFIM of mfapi.h, the stages of symbol lists.

pub use crate::macro_stage::{
    SMFIM_CONNECT, SMFIM_DATA, SMFIM_ENVFROM, SMFIM_ENVRCPT, SMFIM_EOH, SMFIM_EOM, SMFIM_HELO,
};
pub use milter_fields::{SMFIA_INET, SMFIA_INET6, SMFIA_UNIX, SMFIA_UNKNOWN};

/// The message is given up. Source: mfdef.h.
pub const SMFIC_ABORT: u8 = b'A';

/// A chunk of the body. Source: mfdef.h.
pub const SMFIC_BODY: u8 = b'B';

/// A client has connected. Source: mfdef.h.
pub const SMFIC_CONNECT: u8 = b'C';

/// Macros. Source: mfdef.h.
pub const SMFIC_MACRO: u8 = b'D';

/// The end of the message. Source: mfdef.h.
pub const SMFIC_BODYEOB: u8 = b'E';

/// HELO or EHLO. Source: mfdef.h.
pub const SMFIC_HELO: u8 = b'H';

/// The end of a connection, and another one follows. Source: mfdef.h.
pub const SMFIC_QUIT_NC: u8 = b'K';

/// A header field. Source: mfdef.h.
pub const SMFIC_HEADER: u8 = b'L';

/// The sender. Source: mfdef.h.
pub const SMFIC_MAIL: u8 = b'M';

/// The end of the header. Source: mfdef.h.
pub const SMFIC_EOH: u8 = b'N';

/// Options, in either direction. Source: mfdef.h.
pub const SMFIC_OPTNEG: u8 = b'O';

/// The end of the connection. Source: mfdef.h.
pub const SMFIC_QUIT: u8 = b'Q';

/// A recipient. Source: mfdef.h.
pub const SMFIC_RCPT: u8 = b'R';

/// DATA. Source: mfdef.h.
pub const SMFIC_DATA: u8 = b'T';

/// An unknown command of the client. Source: mfdef.h.
pub const SMFIC_UNKNOWN: u8 = b'U';

/// A recipient more. Source: mfdef.h.
pub const SMFIR_ADDRCPT: u8 = b'+';

/// A recipient less. Source: mfdef.h.
pub const SMFIR_DELRCPT: u8 = b'-';

/// A recipient more, with arguments. Source: mfdef.h.
pub const SMFIR_ADDRCPT_PAR: u8 = b'2';

/// Accept. Source: mfdef.h.
pub const SMFIR_ACCEPT: u8 = b'a';

/// A chunk of another body. Source: mfdef.h.
pub const SMFIR_REPLBODY: u8 = b'b';

/// Continue. Source: mfdef.h.
pub const SMFIR_CONTINUE: u8 = b'c';

/// Discard. Source: mfdef.h.
pub const SMFIR_DISCARD: u8 = b'd';

/// Another sender. Source: mfdef.h.
pub const SMFIR_CHGFROM: u8 = b'e';

/// A header field more. Source: mfdef.h.
pub const SMFIR_ADDHEADER: u8 = b'h';

/// A header field more, at an index. Source: mfdef.h.
pub const SMFIR_INSHEADER: u8 = b'i';

/// Another value of a header field. Source: mfdef.h.
pub const SMFIR_CHGHEADER: u8 = b'm';

/// The filter is still at work. Source: mfdef.h.
pub const SMFIR_PROGRESS: u8 = b'p';

/// Quarantine. Source: mfdef.h.
pub const SMFIR_QUARANTINE: u8 = b'q';

/// Reject. Source: mfdef.h.
pub const SMFIR_REJECT: u8 = b'r';

/// Skip. Source: mfdef.h.
pub const SMFIR_SKIP: u8 = b's';

/// Tempfail. Source: mfdef.h.
pub const SMFIR_TEMPFAIL: u8 = b't';

/// A reply code. Source: mfdef.h.
pub const SMFIR_REPLYCODE: u8 = b'y';
