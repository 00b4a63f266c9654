//! What a filter's edits make of a message.

ghost use Rattle.std.specs.Prelude.{◌≡◌, OnErr, OnOk};
ghost use Rattle.milter_mta_connection.specs.Connection.{has_leading_space_in};
ghost use Rattle.milter_c_objects.specs.Messages.{edited};

use milter_message::Held;
use milter_mta_connection::MtaConnection;
use milter_wire::NoMemory;

/// Makes the edits of a filter's answer to the end of a message, one after the other, as [`MtaConnection::edited`]
/// does; the last reason for a quarantine counts. After `NoMemory` nothing has changed.
pub fn edit_message(held: &mut Held, connection: &MtaConnection) -> Result<(), NoMemory>
    ensures ok { OnOk result (held.new ≡ edited (has_leading_space_in connection.now.channel.negotiated)
        connection.now.channel.edits held.old) }
    ensures err { OnErr result (held.new ≡ held.old) }
{
    let Held {
        message,
        quarantine,
    } = connection.edited(&held.message)?;
    held.message = message;
    if quarantine.is_some() {
        held.quarantine = quarantine;
    }
    Ok(())
}
