//! Laws of messages and their edits, each the contract of a function that does nothing.

ghost use Rattle.std.specs.Prelude.{◌≡◌, ◌≢◌, ◌+◌, ◌-◌, ◌∷◌, ◌++◌, [], All, Bool, drop, take, Err, List, Ok, Some, ℕ};
ghost use Rattle.std.specs.List.{concat, filter_map};
ghost use Rattle.milter_fields.specs.declared.header.Header.{Header};
ghost use Rattle.milter_fields.specs.declared.path.Path.{Path};
ghost use Rattle.milter_wire.specs.declared.reply.Reply.{Reply};
ghost use Rattle.milter_message.specs.declared.leading_space.TheConstants.{LEADING_SPACE};
ghost use Rattle.milter_message.specs.declared.message.TheConstants.{CHUNK_LEN, WEIGHT_MAX};
ghost use Rattle.milter_message.specs.declared.edit.Edit.{Edit};
ghost use Rattle.milter_message.specs.declared.edit.Edit.TheVariants.{Quarantine};
ghost use Rattle.milter_message.specs.EditedMessage.{change, edited_message, headers_after, new_chunk, recipients_after};
ghost use Rattle.milter_message.specs.EditReplies.{edit_of, reply_of};
ghost use Rattle.milter_message.specs.LeadingSpace.{FieldFits, WholeFieldFits, put_header, sent_header};
ghost use Rattle.milter_message.specs.MailObject.{MailObject};
ghost use Rattle.milter_message.specs.Occurrences.{others_than, value_if_any, values_of};

/// The numbers that the definitions name: the bytes of a whole chunk of a body, the most bytes of the packets of a
/// message with those of its connection, and the blank that begins the value of a header field.
pub fn message_limits()
    ensures chunk { CHUNK_LEN ≡ 65535 }
    ensures weight { WEIGHT_MAX ≡ 16777216 }
    ensures leading_space { LEADING_SPACE ≡ 32 }
{}

/// Each edit is asked for by one reply, and what asks for none comes back.
pub fn edits_of_replies()
    ensures asked { (edit : Edit) → edit_of (reply_of edit) ≡ Ok edit }
    ensures only { (reply : Reply) (edit : Edit) → edit_of reply ≡ Ok edit → reply ≡ reply_of edit }
    ensures given_back { (reply other : Reply) → edit_of reply ≡ Err other → other ≡ reply }
{}

/// Two lists of edits in a row are the one after the other.
pub fn edits_in_turn()
    ensures headers { (leading_space : Bool) (headers : List Header) (first second : List Edit) →
        headers_after leading_space headers (first ++ second)
        ≡ headers_after leading_space (headers_after leading_space headers first) second }
    ensures recipients { (recipients : List Path) (first second : List Edit) →
        recipients_after recipients (first ++ second) ≡ recipients_after (recipients_after recipients first) second }
    ensures sender { (leading_space : Bool) (message : MailObject) (first second : List Edit) →
        (edited_message leading_space message (first ++ second)).message.sender
        ≡ (edited_message leading_space (edited_message leading_space message first).message second).message.sender }
    // A body is replaced once; what comes later is appended.
    ensures body { (leading_space : Bool) (message : MailObject) (first second : List Edit) →
        filter_map new_chunk first ≢ [] →
        (edited_message leading_space message (first ++ second)).message.body
        ≡ (edited_message leading_space message first).message.body ++ concat (filter_map new_chunk second) }
    // The last reason counts.
    ensures quarantine { (leading_space : Bool) (message : MailObject) (edits : List Edit) (reason : List ℕ) →
        (edited_message leading_space message (edits ++ Quarantine reason ∷ [])).quarantine ≡ Some reason }
{}

/// A change of a header field, by the values of its name: the one with this number, counted from 1, gets the new
/// value, or is no more where that is empty; where there are fewer, the new value comes last. The fields of other names
/// stay as they are.
pub fn changed_fields()
    ensures values { (index : ℕ) (header : Header) (headers : List Header) →
        values_of header.name (change index header headers)
        ≡ take (index - 1) (values_of header.name headers) ++ value_if_any header.value
        ++ drop (index - 1 + 1) (values_of header.name headers) }
    ensures others { (index : ℕ) (header : Header) (headers : List Header) →
        others_than header.name (change index header headers) ≡ others_than header.name headers }
{}

/// What is put is sent as it was asked for, whether leading spaces are sent or not; and a header field that fits a
/// packet with its whole value fits one without the blank that it begins with.
pub fn leading_spaces()
    ensures sent { (leading_space : Bool) (header : Header) →
        sent_header leading_space (put_header leading_space header) ≡ header }
    ensures whole { (headers : List Header) → All WholeFieldFits headers → All FieldFits headers }
{}
