//! Laws of what replies are received as, each the contract of a function that does nothing.

ghost use Rattle.std.specs.Prelude.{◌≡◌, ◌≤◌, ◌+◌, ℕ, Ok, true};
ghost use Rattle.milter_wire.specs.declared.options.Options.{Options};
ghost use Rattle.milter_wire.specs.declared.negotiation.Negotiated.{Negotiated};
ghost use Rattle.milter_wire.specs.declared.reply.Reply.{Reply};
ghost use Rattle.milter_wire.specs.declared.stage.Stage.{Stage as AnyStage};
ghost use Rattle.milter_wire.specs.declared.stage.Stage.TheVariants.{Body};
ghost use Rattle.milter_wire.specs.declared.verdict.Verdict.{Verdict as AnyVerdict};
ghost use Rattle.milter_wire.specs.declared.verdict.Verdict.TheVariants.{Skip};
ghost use Rattle.milter_message.specs.declared.edit.Edit.{Edit as AnyEdit};
ghost use Rattle.milter_message.specs.declared.message.TheConstants.{WEIGHT_MAX};
ghost use Rattle.milter_message.specs.EditReplies.{reply_of, weight_of};
ghost use Rattle.milter_protocol.specs.declared.answer.Action.TheVariants.{Edit, Verdict};
ghost use Rattle.milter_protocol.specs.Permitted.{is_permitted};
ghost use Rattle.milter_protocol.specs.Replies.{options_reply};
ghost use Rattle.milter_mta_outcome.specs.ReceivedReplies.{IsWithinOffer, is_end, is_given, options_received, reply_received};

/// An edit that is received is that of its reply, and there is room for it; it comes at the end of a message, by an
/// action that was negotiated. A verdict that is received is given at the stage; and a body's chunks alone are skipped.
pub fn received_replies()
    ensures edit { (negotiated : Negotiated) (stage : AnyStage) (weight : ℕ) (reply : Reply) (edit : AnyEdit) →
        reply_received negotiated stage weight reply ≡ Ok (Edit edit) →
        (reply_of edit ≡ reply) × (weight + weight_of edit ≤ WEIGHT_MAX) }
    ensures at_end { (negotiated : Negotiated) (stage : AnyStage) (weight : ℕ) (reply : Reply) (edit : AnyEdit) →
        reply_received negotiated stage weight reply ≡ Ok (Edit edit) → is_end stage ≡ true }
    ensures permitted { (negotiated : Negotiated) (stage : AnyStage) (weight : ℕ) (reply : Reply) (edit : AnyEdit) →
        reply_received negotiated stage weight reply ≡ Ok (Edit edit) → is_permitted negotiated edit ≡ true }
    ensures verdict { (negotiated : Negotiated) (stage : AnyStage) (weight : ℕ) (reply : Reply) (verdict : AnyVerdict) →
        reply_received negotiated stage weight reply ≡ Ok (Verdict verdict) → is_given negotiated stage verdict ≡ true }
    ensures skip { (negotiated : Negotiated) (stage : AnyStage) → is_given negotiated stage Skip ≡ true → stage ≡ Body }
{}

/// What is negotiated is what the filter replied to the offer, and within the offer; and all that is within it is
/// negotiated.
pub fn received_options()
    ensures reply { (offer : Options) (reply : Reply) (negotiated : Negotiated) →
        options_received offer reply ≡ Ok negotiated → reply ≡ options_reply negotiated }
    ensures within { (offer : Options) (reply : Reply) (negotiated : Negotiated) →
        options_received offer reply ≡ Ok negotiated → IsWithinOffer offer negotiated }
    ensures received { (offer : Options) (negotiated : Negotiated) →
        IsWithinOffer offer negotiated → options_received offer (options_reply negotiated) ≡ Ok negotiated }
{}
