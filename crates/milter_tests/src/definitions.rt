//! Worked examples of the definitions that contracts name: each is what the definition computes.

ghost use Rattle.std.specs.Prelude.{◌≡◌, [], ◌∷◌, ◌++◌, codes, false, drop, length, List, ℕ, None, Some, take, true};
ghost use Rattle.milter_wire.specs.declared.command.Command.TheVariants as commands;
ghost use Rattle.milter_message.specs.declared.edit.Edit.TheVariants.{AddHeader, AddRcpt, AddRcptPar, ChangeFrom, ChangeHeader, DelRcpt, Quarantine, ReplaceBody};
ghost use Rattle.milter_wire.specs.SharedOptions.{common};
ghost use Rattle.milter_wire.specs.Bits.{actions_table, bits_named, protocol_table};
ghost use Rattle.milter_message.specs.EditedMessage.{edited_message, headers_after, recipients_after};
ghost use Rattle.milter_mail.specs.HeldText.{held_text};
ghost use Rattle.milter_message.specs.Chunks.{chunks_of};
ghost use Rattle.milter_message.specs.LeadingSpace.{sent_header};
ghost use Rattle.milter_mail.specs.Steps.{message_steps, opening_steps};
ghost use Rattle.milter_wire.specs.Negotiation.{negotiate, is_asked};
ghost use Rattle.milter_wire.specs.Command.{encoding};
ghost use Rattle.milter_mail.specs.Weight.{weight};
ghost use Rattle.milter_tests.specs.WorkedEdits.{edits_of_fields, new_fields, new_fields_with_blanks, old_fields};
ghost use Rattle.milter_tests.specs.WorkedMessage.{negotiated, at, client, field, helo, line, message, no_macros, one_macro, options};
ghost use Rattle.milter_tests.specs.WorkedMacros.{blank_field, blank_field_packet, both_packets, client_packet, field_packet, list, listed_packets, message_with, one_packets, opened, other_j, tab_field, tab_field_packet, two_pairs};
ghost use Rattle.milter_tests.specs.WorkedSession.{negotiated_with_lists, message_of, opening_commands, planned_commands, session_of};
ghost use Rattle.milter_mail.specs.Plan.{opening, plan};
ghost use Rattle.milter_tests.specs.WorkedPlan.{all_macros, body, eob, full_message, header, mail, one, rcpt, short_message};

use milter_mail::weight_of_parts;

/// Edits of header fields count positions and occurrences in the list as it is by then.
pub fn edited_fields()
    ensures in_order { headers_after true old_fields edits_of_fields ≡ new_fields }
    ensures with_blanks { headers_after false old_fields edits_of_fields ≡ new_fields_with_blanks }
    // The number 0 is taken as 1.
    ensures first { headers_after true old_fields (ChangeHeader 0 (field (codes "a") (codes "x")) ∷ [])
        ≡ field (codes "A") (codes "x") ∷ field (codes "B") (codes "2") ∷ field (codes "A") (codes "3") ∷ [] }
    // An empty value deletes, and deletes nothing where there is no such occurrence.
    ensures deleted { headers_after true old_fields (ChangeHeader 2 (field (codes "a") []) ∷ [])
        ≡ field (codes "A") (codes "1") ∷ field (codes "B") (codes "2") ∷ [] }
    ensures absent { headers_after true old_fields (ChangeHeader 3 (field (codes "a") []) ∷ []) ≡ old_fields }
    ensures deleted_without_blanks { headers_after false old_fields (ChangeHeader 2 (field (codes "a") []) ∷ [])
        ≡ field (codes "A") (codes "1") ∷ field (codes "B") (codes "2") ∷ [] }
    ensures added { headers_after true [] (AddHeader (field (codes "A") (codes "1")) ∷ [])
        ≡ field (codes "A") (codes "1") ∷ [] }
    // An empty value that is added gets a blank too.
    ensures added_blank { headers_after false [] (AddHeader (field (codes "A") []) ∷ [])
        ≡ field (codes "A") (codes " ") ∷ [] }
{}

/// Edits of recipients, of the sender, of the body and of the quarantine.
pub fn edited_messages()
    // Each recipient with the address is deleted; one that is added later stays.
    ensures recipients { recipients_after (at (codes "b") ∷ at (codes "c") ∷ at (codes "b") ∷ [])
        (DelRcpt (codes "b") ∷ AddRcpt (codes "c") ∷ []) ≡ at (codes "c") ∷ at (codes "c") ∷ [] }
    // The arguments are the one parameter.
    ensures arguments { recipients_after [] (AddRcptPar (codes "b") (Some (codes "N=1 X")) ∷ [])
        ≡ (record { address = codes "b"; params = codes "N=1 X" ∷ [] }) ∷ [] }
    ensures no_arguments { recipients_after [] (AddRcptPar (codes "b") None ∷ []) ≡ at (codes "b") ∷ [] }
    // The last sender counts, and without arguments it has no parameters.
    ensures sender { (edited_message true message (ChangeFrom (codes "c") (Some []) ∷ ChangeFrom (codes "d") None
        ∷ [])).message.sender
        ≡ at (codes "d") }
    ensures body { (edited_message true message (ReplaceBody (codes "one") ∷ ReplaceBody [] ∷ ReplaceBody (codes "two")
        ∷ [])).message.body
        ≡ codes "onetwo" }
    ensures quarantine { (edited_message true message (Quarantine (codes "p") ∷ Quarantine (codes "q") ∷ [])).quarantine
        ≡ Some (codes "q") }
    ensures nothing { edited_message true message [] ≡ record { message = message; quarantine = None } }
{}

/// The commands of one small session, and their weight.
#[tactic(auto, unfolding(milter_fields::specs::Number::number))]
pub fn planned_sessions()
    ensures opened { opening_steps (negotiated 6 0) no_macros client helo
        ≡ commands.Connect client ∷ commands.Helo helo ∷ [] }
    ensures whole { message_steps (negotiated 6 0) no_macros message
        ≡ commands.Mail (at (codes "a@x")) ∷ commands.Rcpt (at (codes "b@y")) ∷ commands.DataCmd ∷ commands.Eoh
        ∷ commands.Eob [] ∷ [] }
    // Before version 4 there was no DATA.
    ensures version { message_steps (negotiated 3 0) no_macros message
        ≡ commands.Mail (at (codes "a@x")) ∷ commands.Rcpt (at (codes "b@y")) ∷ commands.Eoh ∷ commands.Eob [] ∷ [] }
    // A stage that isn't sent has no macros either.
    ensures left_out { opening_steps (negotiated 6 1) one_macro client helo ≡ commands.Helo helo ∷ [] }
    ensures macros { opening_steps (negotiated 6 2) one_macro client helo
        ≡ commands.Macro 67 (one_macro.connect) ∷ commands.Connect client ∷ [] }
    ensures weight { weight client helo no_macros message ≡ 59 }
    ensures weight_of_macros { weight client helo one_macro message ≡ 70 }
    ensures chunks { (body : List ℕ) → length body ≡ 131071 → length (chunks_of body) ≡ 3 }
    ensures two_chunks { (body : List ℕ) → length body ≡ 65536 → length (chunks_of body) ≡ 2 }
    ensures two_chunks_are { (body : List ℕ) → length body ≡ 65536 →
        chunks_of body ≡ take 65535 body ∷ take 65535 (drop 65535 body) ∷ [] }
    ensures one_chunk { (body : List ℕ) → length body ≡ 65535 → length (chunks_of body) ≡ 1 }
    ensures no_chunks { chunks_of [] ≡ [] }
{}

/// The commands with the macros of each stage, and of a message with each part.
pub fn planned_macros()
    ensures opened { opening_steps (negotiated 6 0) all_macros client helo
        ≡ commands.Macro 67 (one (codes "c")) ∷ commands.Connect client ∷ commands.Macro 72 (one (codes "h"))
        ∷ commands.Helo helo ∷ [] }
    // The macros of recipients come before each of them, and those of header fields and of the body are none.
    ensures whole { message_steps (negotiated 6 0) all_macros full_message
        ≡ commands.Macro 77 (one (codes "m")) ∷ mail ∷ commands.Macro 82 (one (codes "r")) ∷ rcpt
        ∷ commands.Macro 82 (one (codes "r")) ∷ commands.Rcpt (at (codes "c@z"))
        ∷ commands.Macro 84 (one (codes "t")) ∷ commands.DataCmd
        ∷ header ∷ commands.Header (field (codes "B") (codes "2")) ∷ commands.Macro 78 (one (codes "n")) ∷ commands.Eoh
        ∷ body ∷ commands.Macro 69 (one (codes "e")) ∷ eob ∷ [] }
{}

/// The commands of a message with each NO bit: the stage of the bit is left out.
pub fn planned_stages()
    ensures none { message_steps (negotiated 6 0) no_macros short_message ≡ mail ∷ rcpt ∷ commands.DataCmd ∷ header
        ∷ commands.Eoh ∷ body ∷ eob ∷ [] }
    ensures mail { message_steps (negotiated 6 4) no_macros short_message ≡ rcpt ∷ commands.DataCmd ∷ header
        ∷ commands.Eoh ∷ body ∷ eob ∷ [] }
    ensures rcpt { message_steps (negotiated 6 8) no_macros short_message ≡ mail ∷ commands.DataCmd ∷ header
        ∷ commands.Eoh ∷ body ∷ eob ∷ [] }
    ensures data { message_steps (negotiated 6 512) no_macros short_message ≡ mail ∷ rcpt ∷ header ∷ commands.Eoh ∷ body
        ∷ eob ∷ [] }
    ensures header { message_steps (negotiated 6 32) no_macros short_message ≡ mail ∷ rcpt ∷ commands.DataCmd
        ∷ commands.Eoh ∷ body ∷ eob ∷ [] }
    ensures eoh { message_steps (negotiated 6 64) no_macros short_message ≡ mail ∷ rcpt ∷ commands.DataCmd ∷ header
        ∷ body ∷ eob ∷ [] }
    ensures body { message_steps (negotiated 6 16) no_macros short_message ≡ mail ∷ rcpt ∷ commands.DataCmd ∷ header
        ∷ commands.Eoh ∷ eob ∷ [] }
    // The end of a message is always sent, and NOUNKNOWN, SKIP and the NR bits leave nothing out.
    ensures all { message_steps (negotiated 6 636) all_macros short_message ≡ commands.Macro 69 (one (codes "e")) ∷ eob
        ∷ [] }
    ensures others { message_steps (negotiated 6 1045888) no_macros short_message ≡ mail ∷ rcpt ∷ commands.DataCmd
        ∷ header ∷ commands.Eoh ∷ body ∷ eob ∷ [] }
{}

/// Which commands are asked about, with each NR bit.
pub fn asked_commands()
    ensures connect { is_asked (negotiated 6 0) (commands.Connect client) ≡ true }
    ensures not_connect { is_asked (negotiated 6 4096) (commands.Connect client) ≡ false }
    ensures not_helo { is_asked (negotiated 6 8192) (commands.Helo helo) ≡ false }
    ensures not_mail { is_asked (negotiated 6 16384) mail ≡ false }
    ensures not_rcpt { is_asked (negotiated 6 32768) rcpt ≡ false }
    ensures not_data { is_asked (negotiated 6 65536) commands.DataCmd ≡ false }
    ensures not_header { is_asked (negotiated 6 128) header ≡ false }
    ensures not_eoh { is_asked (negotiated 6 262144) commands.Eoh ≡ false }
    ensures not_body { is_asked (negotiated 6 524288) body ≡ false }
    // Another bit leaves it asked, the end of a message always is, and macros and what is no stage never are.
    ensures other { is_asked (negotiated 6 1032191) mail ≡ true }
    ensures eob { is_asked (negotiated 6 1048575) eob ≡ true }
    ensures macros { is_asked (negotiated 6 0) (commands.Macro 67 (one (codes "c"))) ≡ false }
    ensures quit { is_asked (negotiated 6 0) commands.Quit ≡ false }
{}

/// What is sent of a session with macros, symbol lists and a body of 65,536 bytes, and before its first message.
pub fn planned_connections()
    ensures opening { opening (negotiated_with_lists 0) (session_of (codes "hi")) ≡ opening_commands }
    ensures plan { (body : List ℕ) → length body ≡ 65536 →
        plan (negotiated_with_lists 0) (session_of body) (message_of body) ≡ planned_commands body }
{}

/// What two ends negotiate.
pub fn negotiated_options()
    ensures smaller { common (options 6 1047) (options 2 3) ≡ options 2 3 }
    ensures bits { common (options 3 5) (options 6 6) ≡ options 3 4 }
    // Without an offer to take symbol lists there are none.
    ensures no_lists { negotiate (options 6 0) (options 6 0) (record { stage = 0; names = codes "j" } ∷ [])
        ≡ negotiated 6 0 }
{}

/// The sets of bits that texts name: names with bars between, in any order and repeated or not, or the word `none`.
pub fn named_bits()
    ensures none { bits_named actions_table (codes "none") ≡ Some 0 }
    ensures repeated { bits_named actions_table (codes "CHGBODY|ADDHDRS|CHGBODY") ≡ Some 3 }
    ensures eight { bits_named actions_table
        (codes "ADDHDRS|CHGBODY|ADDRCPT|DELRCPT|CHGHDRS|QUARANTINE|CHGFROM|ADDRCPT_PAR") ≡ Some 255 }
    ensures protocol { bits_named protocol_table (codes "SKIP|NR_BODY") ≡ Some 525312 }
    ensures leading_space { bits_named protocol_table (codes "HDR_LEADSPC") ≡ Some 1048576 }
    // Names are matched exactly, and there is one between any two bars.
    ensures empty { bits_named actions_table [] ≡ None }
    ensures bar_after { bits_named actions_table (codes "ADDHDRS|") ≡ None }
    ensures bar_before { bits_named actions_table (codes "|ADDHDRS") ≡ None }
    ensures two_bars { bits_named actions_table (codes "ADDHDRS||CHGBODY") ≡ None }
    ensures blanks { bits_named actions_table (codes "ADDHDRS | CHGBODY") ≡ None }
    ensures lower_case { bits_named actions_table (codes "addhdrs") ≡ None }
    ensures shorter { bits_named actions_table (codes "ADDHDR") ≡ None }
    ensures prefix { bits_named actions_table (codes "ADDRCPT_") ≡ None }
    ensures none_beside_another { bits_named actions_table (codes "none|ADDHDRS") ≡ None }
    ensures number { bits_named actions_table (codes "0x1") ≡ None }
    ensures letter { bits_named actions_table (195 ∷ 132 ∷ codes "DDHDRS") ≡ None }
{}

/// The bytes of the connection, by the symbol lists of its first stage: without one all macros, else the last macro of
/// each name, in the order of the list, and no packet of macros where none is left.
#[tactic(auto, unfolding(milter_fields::specs::Number::number))]
pub fn symbol_lists()
    ensures all { opened [] two_pairs ≡ both_packets }
    ensures one { opened (list 0 (codes "j") ∷ []) two_pairs ≡ one_packets }
    ensures in_its_order { opened (list 0 (codes "j k j") ∷ []) two_pairs ≡ listed_packets }
    ensures blanks { opened (list 0 (codes "  j  k ") ∷ []) two_pairs ≡ listed_packets }
    ensures no_such { opened (list 0 (codes "z") ∷ []) two_pairs ≡ client_packet }
    ensures empty { opened (list 0 [] ∷ []) two_pairs ≡ client_packet }
    // The last list of a stage counts, and one of a stage above 6 changes nothing.
    ensures last_list { opened (list 0 (codes "z") ∷ list 0 (codes "j") ∷ []) two_pairs ≡ one_packets }
    ensures no_stage { opened (list 0 (codes "j") ∷ list 7 (codes "k") ∷ list 1 (codes "k") ∷ []) two_pairs
        ≡ one_packets }
    // The last macro of a name counts.
    ensures last_pair { opened (list 0 (codes "j") ∷ []) (other_j ∷ two_pairs) ≡ one_packets }
{}

/// A header field whose value begins with a blank is sent without it, unless leading spaces are sent; another first
/// byte stays.
#[tactic(auto, unfolding(milter_fields::specs::Number::number))]
pub fn sent_headers()
    ensures without_blank { encoding (commands.Header (sent_header false blank_field)) ≡ field_packet }
    ensures with_blank { encoding (commands.Header (sent_header true blank_field)) ≡ blank_field_packet }
    ensures tab_without_blank { encoding (commands.Header (sent_header false tab_field)) ≡ tab_field_packet }
    ensures tab_with_blank { encoding (commands.Header (sent_header true tab_field)) ≡ tab_field_packet }
    ensures one_alone { sent_header false (field (codes "A") (codes "  x")) ≡ field (codes "A") (codes " x") }
    ensures tab { sent_header false (field (codes "A") (9 ∷ codes "hi")) ≡ field (codes "A") (9 ∷ codes "hi") }
    // In a message that is sent but for the other stages.
    ensures planned { message_steps (negotiated 6 604) no_macros (message_with blank_field)
        ≡ commands.Header (field (codes "Subject") (codes "hi")) ∷ commands.Eob [] ∷ [] }
    ensures planned_with_blank { message_steps (negotiated 6 1049180) no_macros (message_with blank_field)
        ≡ commands.Header blank_field ∷ commands.Eob [] ∷ [] }
{}

/// The largest body of a message of that session: 16 MiB with all else.
#[tactic(auto, unfolding(milter_fields::specs::Number::number))]
pub fn largest_messages()
    ensures { (body : List ℕ) → length body ≡ 16775877 →
        weight client helo no_macros (record {
          sender = message.sender;
          recipients = message.recipients;
          headers =
              [];
          body = body;
        }) ≡ 16777216 }
{
    weight_of_parts();
}

/// The text of a held message.
pub fn message_texts()
    ensures unedited { held_text (record { message = message; quarantine = None })
        ≡ line (codes "sender") (codes "a@x") ++ line (codes "recipient") (codes "b@y") ++ line (codes "body") []
        ++ codes "end" ++ 10 ∷ [] }
{}
