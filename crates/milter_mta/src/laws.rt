//! Laws of a mail server's end, each the contract of a function that does nothing.

ghost use Rattle.std.specs.Prelude.{◌≡◌, ◌≢◌, ◌++◌, ◌∷◌, ◌↔◌, [], Err, List, None, Some, false, true, ℕ};
ghost use Rattle.std.specs.List.{fold};
ghost use Rattle.milter_fields.specs.declared.fault.WireFault.{WireFault};
ghost use Rattle.milter_fields.specs.declared.fault.WireFault.TheVariants.{Malformed, UnknownCode};
ghost use Rattle.milter_fields.specs.Stream.{Frame, IsFrame, IsUnfinished, frame_bytes, length_fault};
ghost use Rattle.milter_wire.specs.declared.reply.Reply.{Reply};
ghost use Rattle.milter_wire.specs.Frames.{frame_reply};
ghost use Rattle.milter_wire.specs.Reply.{Fits, encoding, is_code};
ghost use Rattle.milter_message.specs.MailObject.{MailObject};
ghost use Rattle.milter_mta_outcome.specs.declared.loss.Loss.{Loss};
ghost use Rattle.milter_mta_outcome.specs.declared.loss.MtaFault.TheVariants.{Early, Wire};
ghost use Rattle.milter_mta.specs.Mta.{FilterConnection, Mta};
ghost use Rattle.milter_mta.specs.Replies.{at, fails, goes_on, received, received_byte, replied};
ghost use Rattle.milter_mta.specs.Dispositions.{acted_in, default_report, lost};

use milter_wire::reply_frames;

/// What is received of a piece and then of another is what is received of both in one.
pub fn pieces_go_on()
    ensures { (m : Mta) (first second : List ℕ) →
        received m (first ++ second) ≡ fold received_byte (received m first) second }
{}

/// The bytes of a reply that is owed are received as that reply, while a message isn't settled.
pub fn replies_are_received()
    ensures { (m : Mta) (filter_connection : FilterConnection) (reply : Reply) → filter_connection.owed ≡ true →
        filter_connection.unread ≡ [] →
        m.session.messages ≢ [] → Fits reply →
        received (at filter_connection m) (encoding reply)
        ≡ replied filter_connection.position reply (at filter_connection m) }
{
    reply_frames();
}

/// Of the bytes of a reply that is owed fewer than all are kept, and nothing else comes of them.
pub fn reply_prefixes_are_kept()
    ensures { (m : Mta) (filter_connection : FilterConnection) (reply : Reply) (bytes more : List ℕ) →
        filter_connection.owed ≡ true → filter_connection.unread ≡ [] →
        Fits reply → more ≢ [] → bytes ++ more ≡ encoding reply →
        received (at filter_connection m) bytes ≡ goes_on (at (record filter_connection { unread = bytes }) m) }
{}

/// A packet that no reply has, and a length that no packet has, are received as that fault, while a reply is owed; what
/// comes while none is owed is `Early`; and after a loss nothing more is received.
pub fn faults_are_received()
    ensures packet { (m : Mta) (filter_connection : FilterConnection) (f : Frame) (bytes : List ℕ) (fault : WireFault) →
        filter_connection.owed ≡ true →
        IsUnfinished filter_connection.unread → IsFrame f → filter_connection.unread ++ bytes ≡ frame_bytes f →
        frame_reply f ≡ Err fault →
        received (at filter_connection m) bytes ≡ fails (Wire fault) (at filter_connection m) }
    ensures unknown_code { (f : Frame) →
        (frame_reply f ≡ Err (UnknownCode f.code)) ↔ (is_code f.code ≡ false) }
    ensures malformed { (f : Frame) (fault : WireFault) → is_code f.code ≡ true → frame_reply f ≡ Err fault →
        fault ≡ Malformed f.code }
    // A length that no packet has, whatever follows it.
    ensures length { (m : Mta) (filter_connection : FilterConnection) (bytes : List ℕ) (fault : WireFault) →
        filter_connection.owed ≡ true →
        IsUnfinished filter_connection.unread → length_fault (filter_connection.unread ++ bytes) ≡ Some fault →
        received (at filter_connection m) bytes ≡ fails (Wire fault) (at filter_connection m) }
    ensures early { (m : Mta) (filter_connection : FilterConnection) (bytes : List ℕ) → filter_connection.owed ≡ false →
        bytes ≢ [] →
        received (at filter_connection m) bytes ≡ fails Early (at filter_connection m) }
    ensures unconnected { (m : Mta) (bytes : List ℕ) → m.filter_connection ≡ None → bytes ≢ [] →
        received m bytes ≡ fails Early m }
    ensures lost { (m : Mta) (first second : List ℕ) (loss : Loss) → (received m first).loss ≡ Some loss →
        received m (first ++ second) ≡ received m first }
{}

/// A loss settles exactly one message, the first of those that are not settled, or none where all are; and there is no
/// connection then.
pub fn losses_settle_one()
    ensures one { (loss : Loss) (m : Mta) (message : MailObject) (messages : List MailObject) →
        m.session.messages ≡ message ∷ messages →
        ((lost loss m).session.messages ≡ messages)
        × ((lost loss m).reports
        ≡ m.reports ++ default_report m.config.on_loss loss message (acted_in m.filter_connection) ∷ []) }
    ensures none { (loss : Loss) (m : Mta) → m.session.messages ≡ [] →
        lost loss m ≡ record m { filter_connection = None } }
    ensures unconnected { (loss : Loss) (m : Mta) → (lost loss m).filter_connection ≡ None }
{}
