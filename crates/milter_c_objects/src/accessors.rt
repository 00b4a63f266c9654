//! The texts of a message.

ghost use Rattle.std.specs.Prelude.{◌≡◌, option_map};
ghost use Rattle.milter_c_objects.specs.Messages.{header_name_at, header_value_at, recipient_at};

use milter_message::Held;

/// The address of the sender. Doesn't allocate.
pub fn sender(held: &Held) -> &[u8]
    ensures { result.now ≡ held.now.message.sender.address }
{
    held.message.sender().address.as_slice()
}

/// The address of the recipient at a place, from 0. Doesn't allocate.
pub fn recipient(held: &Held, place: usize) -> Option<&[u8]>
    ensures { option_map (λ text. text.now) result ≡ recipient_at held.now place }
{
    match held.message.recipients().get(place) {
        Some(path) => Some(path.address.as_slice()),
        None => None,
    }
}

/// The name of the header field at a place, from 0. Doesn't allocate.
pub fn header_name(held: &Held, place: usize) -> Option<&[u8]>
    ensures { option_map (λ text. text.now) result ≡ header_name_at held.now place }
{
    match held.message.headers().get(place) {
        Some(header) => Some(header.name.as_slice()),
        None => None,
    }
}

/// The value of the header field at a place, from 0. Doesn't allocate.
pub fn header_value(held: &Held, place: usize) -> Option<&[u8]>
    ensures { option_map (λ text. text.now) result ≡ header_value_at held.now place }
{
    match held.message.headers().get(place) {
        Some(header) => Some(header.value.as_slice()),
        None => None,
    }
}

/// The reason for which the message goes into quarantine, if it does. Doesn't allocate.
pub fn quarantine(held: &Held) -> Option<&[u8]>
    ensures { option_map (λ text. text.now) result ≡ held.now.quarantine }
{
    match &held.quarantine {
        Some(reason) => Some(reason.as_slice()),
        None => None,
    }
}
