//! Laws of the encodings, each the contract of a function that does nothing.

ghost use Rattle.std.specs.Prelude.{◌≡◌, ◌≢◌, ◌∷◌, ◌++◌, ◌↔◌, All, IsTrue, List, ℕ, [], codes, length, map, Err, Ok, Result, Some};
ghost use Rattle.std.specs.List.{flat_map};
ghost use Rattle.milter_fields.specs.declared.fault.WireFault.{WireFault};
ghost use Rattle.milter_fields.specs.Stream.{Divides, Frame, IsRest, divide};
ghost use Rattle.milter_wire.specs.declared.codes.TheConstants.{SMFIC_ABORT, SMFIC_BODY, SMFIC_BODYEOB, SMFIC_CONNECT, SMFIC_DATA, SMFIC_EOH, SMFIC_HEADER, SMFIC_HELO, SMFIC_MACRO, SMFIC_MAIL, SMFIC_OPTNEG, SMFIC_QUIT, SMFIC_QUIT_NC, SMFIC_RCPT, SMFIC_UNKNOWN};
ghost use Rattle.milter_wire.specs.declared.codes.TheConstants.{SMFIR_ACCEPT, SMFIR_ADDHEADER, SMFIR_ADDRCPT, SMFIR_ADDRCPT_PAR, SMFIR_CHGFROM, SMFIR_CHGHEADER, SMFIR_CONTINUE, SMFIR_DELRCPT, SMFIR_DISCARD, SMFIR_INSHEADER, SMFIR_PROGRESS, SMFIR_QUARANTINE, SMFIR_REJECT, SMFIR_REPLBODY, SMFIR_REPLYCODE, SMFIR_SKIP, SMFIR_TEMPFAIL};
ghost use Rattle.milter_wire.specs.declared.command.Command.{Command};
ghost use Rattle.milter_wire.specs.declared.reply.Reply.{Reply};
ghost use Rattle.milter_wire.specs.Command as commands;
ghost use Rattle.milter_wire.specs.Reply as replies;
ghost use Rattle.milter_wire.specs.Tables.{Decodes};
ghost use Rattle.milter_wire.specs.Frames.{command_frame, frame_command, frame_reply, frames_and, reply_frame};

/// The codes of commands and of replies, in the order of their characters. Source: mfdef.h.
pub fn code_characters()
    ensures commands { SMFIC_ABORT ∷ SMFIC_BODY ∷ SMFIC_CONNECT ∷ SMFIC_MACRO ∷ SMFIC_BODYEOB ∷ SMFIC_HELO ∷
        SMFIC_QUIT_NC ∷ SMFIC_HEADER ∷ SMFIC_MAIL ∷ SMFIC_EOH ∷ SMFIC_OPTNEG ∷ SMFIC_QUIT ∷ SMFIC_RCPT ∷
        SMFIC_DATA ∷ SMFIC_UNKNOWN ∷ []
        ≡ codes "ABCDEHKLMNOQRTU" }
    ensures replies { SMFIR_ADDRCPT ∷ SMFIR_DELRCPT ∷ SMFIR_ADDRCPT_PAR ∷ SMFIR_ACCEPT ∷ SMFIR_REPLBODY ∷
        SMFIR_CONTINUE ∷ SMFIR_DISCARD ∷ SMFIR_CHGFROM ∷ SMFIR_ADDHEADER ∷ SMFIR_INSHEADER ∷ SMFIR_CHGHEADER ∷
        SMFIR_PROGRESS ∷ SMFIR_QUARANTINE ∷ SMFIR_REJECT ∷ SMFIR_SKIP ∷ SMFIR_TEMPFAIL ∷ SMFIR_REPLYCODE ∷ []
        ≡ codes "+-2abcdehimpqrsty" }
{}

/// A command that fits has exactly one encoding, and another has none.
pub fn command_encodings()
    ensures one { (c : Command) → commands.Fits c → commands.IsEncodedAs c (commands.encoding c) }
    ensures no_other { (c : Command) (bytes : List ℕ) → commands.IsEncodedAs c bytes → bytes ≡ commands.encoding c }
    ensures none { (c : Command) (bytes : List ℕ) → ¬ commands.Fits c → ¬ commands.IsEncodedAs c bytes }
{}

/// A code is known exactly where some command that a packet has room for has it.
pub fn command_codes()
    ensures { (code : ℕ) → IsTrue (commands.is_code code) ↔ commands.IsCodeOfSome code }
{}

/// Bytes encode at most one command, and no encoding is a proper prefix of another.
pub fn commands_apart()
    ensures one { (c d : Command) (bytes : List ℕ) →
        commands.IsEncodedAs c bytes → commands.IsEncodedAs d bytes → c ≡ d }
    ensures whole { (c d : Command) (bytes more : List ℕ) →
        commands.IsEncodedAs c bytes → commands.IsEncodedAs d (bytes ++ more) → more ≡ [] }
{}

/// A reply that fits has exactly one encoding, and another has none.
pub fn reply_encodings()
    ensures one { (r : Reply) → replies.Fits r → replies.IsEncodedAs r (replies.encoding r) }
    ensures no_other { (r : Reply) (bytes : List ℕ) → replies.IsEncodedAs r bytes → bytes ≡ replies.encoding r }
    ensures none { (r : Reply) (bytes : List ℕ) → ¬ replies.Fits r → ¬ replies.IsEncodedAs r bytes }
{}

/// A code is known exactly where some reply that a packet has room for has it.
pub fn reply_codes()
    ensures { (code : ℕ) → IsTrue (replies.is_code code) ↔ replies.IsCodeOfSome code }
{}

/// Bytes encode at most one reply, and no encoding is a proper prefix of another.
pub fn replies_apart()
    ensures one { (r s : Reply) (bytes : List ℕ) →
        replies.IsEncodedAs r bytes → replies.IsEncodedAs s bytes → r ≡ s }
    ensures whole { (r s : Reply) (bytes more : List ℕ) →
        replies.IsEncodedAs r bytes → replies.IsEncodedAs s (bytes ++ more) → more ≡ [] }
{}

/// A command that fits is read back from its packet, and a stream of packets of commands divides into them.
pub fn command_frames()
    ensures read_back { (c : Command) → commands.Fits c →
        commands.command_in (commands.code_of c) (commands.payload_of c) ≡ Some c }
    ensures frame { (c : Command) → commands.Fits c → frame_command (command_frame c) ≡ Ok c }
    ensures divides { (cs : List Command) (rest : List ℕ) → All commands.Fits cs → IsRest rest →
        Divides (flat_map commands.encoding cs ++ rest) (map command_frame cs) rest }
    // The same in words that compute, whatever follows them.
    ensures computed { (cs : List Command) (more : List ℕ) → All commands.Fits cs →
        divide (flat_map commands.encoding cs ++ more) ≡ frames_and (map command_frame cs) more }
    ensures bytes { (cs : List Command) → commands.bytes_of cs ≡ length (flat_map commands.encoding cs) }
    // What `decode` answers, but where memory is refused.
    ensures decoded { (f : Frame) (r : Result Command WireFault) → r ≢ Err WireFault.NoMemory →
        Decodes f.code (commands.is_code f.code) (commands.command_in f.code f.payload) r → r ≡ frame_command f }
{}

/// A reply that fits is read back from its packet, and a stream of packets of replies divides into them.
pub fn reply_frames()
    ensures read_back { (r : Reply) → replies.Fits r →
        replies.reply_in (replies.code_of r) (replies.payload_of r) ≡ Some r }
    ensures frame { (r : Reply) → replies.Fits r → frame_reply (reply_frame r) ≡ Ok r }
    ensures divides { (rs : List Reply) (rest : List ℕ) → All replies.Fits rs → IsRest rest →
        Divides (flat_map replies.encoding rs ++ rest) (map reply_frame rs) rest }
    // The same in words that compute, whatever follows them.
    ensures computed { (rs : List Reply) (more : List ℕ) → All replies.Fits rs →
        divide (flat_map replies.encoding rs ++ more) ≡ frames_and (map reply_frame rs) more }
    ensures bytes { (rs : List Reply) → replies.bytes_of rs ≡ length (flat_map replies.encoding rs) }
    // What `decode` answers, but where memory is refused.
    ensures decoded { (f : Frame) (r : Result Reply WireFault) → r ≢ Err WireFault.NoMemory →
        Decodes f.code (replies.is_code f.code) (replies.reply_in f.code f.payload) r → r ≡ frame_reply f }
{}
