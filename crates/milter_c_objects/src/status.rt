//! The numbers of the library's functions: those of the header, by the same names without its prefix.

/// All was done.
pub const OK: i32 = 0;
/// What is asked for isn't there, or not yet.
pub const NOTHING: i32 = 1;
/// The handle is empty, or has an object of another kind.
pub const WRONG_KIND: i32 = -1;
/// The memory that was asked for was refused.
pub const NO_MEMORY: i32 = -2;
/// A number is out of its range.
pub const BAD_ARGUMENT: i32 = -3;

/// A command came before the options.
pub const FILTER_NOT_NEGOTIATED: i32 = 101;
/// The mail server offers a version below 2.
pub const FILTER_VERSION: i32 = 102;
/// A command came after one of a later stage.
pub const FILTER_OUT_OF_ORDER: i32 = 103;
/// The packets of a connection and of a message together have more than 16,777,216 bytes.
pub const FILTER_TOO_MUCH: i32 = 104;
/// A packet can't be read.
pub const FILTER_WIRE: i32 = 105;
/// The options came a second time.
pub const FILTER_NEGOTIATED_TWICE: i32 = 106;
/// The memory that was asked for was refused.
pub const FILTER_NO_MEMORY: i32 = 107;

/// A length field states 0.
pub const WIRE_ZERO_LENGTH: i32 = 201;
/// A length field states more than 65,536.
pub const WIRE_TOO_LONG: i32 = 202;
/// No packet of the direction has this code.
pub const WIRE_UNKNOWN_CODE: i32 = 203;
/// The payload isn't in the layout of the code.
pub const WIRE_MALFORMED: i32 = 204;
/// The stream ended within a packet.
pub const WIRE_TRUNCATED: i32 = 205;
/// The memory that was asked for was refused.
pub const WIRE_NO_MEMORY: i32 = 206;

/// No question is open.
pub const ANSWER_NOT_ASKED: i32 = 301;
/// There are edits elsewhere than at the end of a message.
pub const ANSWER_EDITS_BEFORE_END: i32 = 302;
/// The verdict is none of this stage.
pub const ANSWER_NOT_GIVEN_THERE: i32 = 303;
/// A text has a NUL, or the text of a code hasn't its form.
pub const ANSWER_BAD_TEXT: i32 = 304;
/// A reply has more bytes than a packet.
pub const ANSWER_TOO_LONG: i32 = 305;
/// The packets of the edits have more than 16,777,216 bytes.
pub const ANSWER_TOO_MUCH: i32 = 306;
/// The question that is open isn't about the end of a message.
pub const ANSWER_NOT_AT_END: i32 = 307;
/// The memory that was asked for was refused.
pub const ANSWER_NO_MEMORY: i32 = 308;

/// The version is none from 2 to 6.
pub const WANTS_VERSION: i32 = 401;
/// An action isn't known.
pub const WANTS_ACTION: i32 = 402;
/// A protocol bit isn't known.
pub const WANTS_PROTOCOL: i32 = 403;
/// There are symbol lists without their action.
pub const WANTS_LISTS: i32 = 404;
/// The names of a symbol list have a NUL.
pub const WANTS_BAD_TEXT: i32 = 405;
/// The reply with all of it has more bytes than a packet.
pub const WANTS_TOO_LONG: i32 = 406;

/// A line isn't in words, or its first word isn't known.
pub const RULES_UNKNOWN_WORD: i32 = 501;
/// The stage of a rule is missing, or isn't one.
pub const RULES_BAD_STAGE: i32 = 502;
/// What stands before `do` isn't conditions.
pub const RULES_BAD_CONDITION: i32 = 503;
/// What stands after `do` isn't an action.
pub const RULES_BAD_ACTION: i32 = 504;
/// The action may not be done at this stage.
pub const RULES_ACTION_NOT_HERE: i32 = 505;
/// A packet would be too long, or all edits, or this is one rule too many.
pub const RULES_TOO_LARGE: i32 = 506;
/// The memory that was asked for was refused.
pub const RULES_NO_MEMORY: i32 = 507;
/// The list of this line has no file, or a line of its file is no entry, or it is too large.
pub const RULES_BAD_LIST: i32 = 508;

/// The connection has ended, or the filter was lost.
pub const CALL_CLOSED: i32 = 601;
/// The options have not come, something is still to be sent, or a verdict is due.
pub const CALL_BUSY: i32 = 602;
/// The command doesn't come here.
pub const CALL_OUT_OF_ORDER: i32 = 603;
/// The command or its macros have more bytes than a packet has room for, or a text has a NUL.
pub const CALL_DOES_NOT_FIT: i32 = 604;
/// The memory that was asked for was refused.
pub const CALL_NO_MEMORY: i32 = 605;

/// The connection broke.
pub const LOSS_RESET: i32 = 701;
/// The filter did not answer in time.
pub const LOSS_TIMEOUT: i32 = 702;
/// The memory that was asked for was refused.
pub const LOSS_NO_MEMORY: i32 = 703;
/// A packet can't be read.
pub const LOSS_WIRE: i32 = 711;
/// The filter answers with a version below 2, above 6 or above the offered one.
pub const LOSS_VERSION: i32 = 712;
/// The filter wants actions, or symbol lists, that were not offered.
pub const LOSS_ACTIONS_NOT_OFFERED: i32 = 713;
/// The filter wants protocol bits that were not offered.
pub const LOSS_PROTOCOL_NOT_OFFERED: i32 = 714;
/// The reply is none to what was sent.
pub const LOSS_NOT_AT_THIS_STAGE: i32 = 715;
/// The filter asks for an edit that was not negotiated.
pub const LOSS_EDIT_NOT_NEGOTIATED: i32 = 716;
/// The packets of a message's edits have more than 16,777,216 bytes.
pub const LOSS_TOO_MANY_EDITS: i32 = 717;
/// Something came while no reply was owed.
pub const LOSS_EARLY: i32 = 718;

/// A client has connected.
pub const STAGE_CONNECT: u32 = 1;
/// The client has sent HELO or EHLO.
pub const STAGE_HELO: u32 = 2;
/// The sender of a message.
pub const STAGE_MAIL: u32 = 3;
/// A recipient of the message.
pub const STAGE_RCPT: u32 = 4;
/// The client has sent DATA.
pub const STAGE_DATA: u32 = 5;
/// A header field of the message.
pub const STAGE_HEADER: u32 = 6;
/// The header has ended.
pub const STAGE_EOH: u32 = 7;
/// A chunk of the body.
pub const STAGE_BODY: u32 = 8;
/// The message has ended.
pub const STAGE_EOB: u32 = 9;

/// The caller gives bytes of the mail server to the filter's end.
pub const STEP_FEED: i32 = 0;
/// The caller sends what is pending.
pub const STEP_SEND: i32 = 1;
/// The caller answers the question that is open.
pub const STEP_ANSWER: i32 = 2;
/// The caller closes the connection.
pub const STEP_DONE: i32 = 3;

/// The mail server goes on.
pub const CONTINUE: u32 = 0;
/// The message or the connection is taken without asking further.
pub const ACCEPT: u32 = 1;
/// What was asked about is refused for good.
pub const REJECT: u32 = 2;
/// What was asked about is refused for now.
pub const TEMPFAIL: u32 = 3;
/// The message is taken and thrown away.
pub const DISCARD: u32 = 4;
/// The mail server sends no further chunk of this body.
pub const SKIP: u32 = 5;
/// What was asked about is refused with a text.
pub const CODE: u32 = 6;

/// Nothing is known of where a client connects from.
pub const FAMILY_UNKNOWN: u32 = 0;
/// A socket of the mail server's machine.
pub const FAMILY_UNIX: u32 = 1;
/// A host with an IPv4 address.
pub const FAMILY_INET: u32 = 2;
/// A host with an IPv6 address.
pub const FAMILY_INET6: u32 = 3;

/// The mail server sends what is pending.
pub const WANT_SEND: i32 = 0;
/// The mail server receives what the filter sends.
pub const WANT_RECEIVE: i32 = 1;
/// The mail server calls with the client's next command.
pub const WANT_COMMAND: i32 = 2;
/// The mail server closes the connection.
pub const WANT_NOTHING: i32 = 3;

/// Nothing is sent of a call, and no verdict comes.
pub const OUTCOME_LEFT_OUT: u32 = 0;
/// What is pending is to be sent, and no verdict comes.
pub const OUTCOME_NO_REPLY: u32 = 1;
/// What is pending is to be sent, and a verdict comes.
pub const OUTCOME_VERDICT_DUE: u32 = 2;

/// No whole reply came.
pub const EVENT_NOTHING: i32 = 0;
/// An edit, or progress, came.
pub const EVENT_IN_PROGRESS: i32 = 1;
/// The options came.
pub const EVENT_NEGOTIATED: i32 = 2;
/// The verdict that was due came.
pub const EVENT_VERDICT: i32 = 3;

/// A part of a message is too long for a packet, or has a NUL.
pub const MESSAGE_DOES_NOT_FIT: i32 = 801;

/// Bytes to the filter.
pub const TO_FILTER: u32 = 0;
/// Bytes to the mail server.
pub const TO_MTA: u32 = 1;
