//! The kinds of lists, and the fields that each is for.

use crate::known_words::{DOMAIN_FIELDS, Kind};
use milter_rules::ListKind;

/// The kinds of lists.
pub(crate) const LIST_KIND: Kind<'static> = Kind {
    called: b"kind",
    names: "addresses|domains|networks|texts",
    others: &[
        ("cidr", "networks"),
        ("ip", "networks"),
        ("email", "addresses"),
        ("string", "texts"),
    ],
};

/// The fields whose values are whole addresses.
const ADDRESS_FIELDS: &str = "sender-address|rcpt-address|recipients-address";

/// The fields that may be in a list of texts.
const TEXT_FIELDS: &str = "host|address|helo|sender|rcpt|recipients|macro";

/// The fields that may be in a list of this kind.
pub(crate) fn fields_of(kind: ListKind) -> &'static str {
    match kind {
        ListKind::Addresses => ADDRESS_FIELDS,
        ListKind::Domains => DOMAIN_FIELDS,
        ListKind::Networks => "address",
        ListKind::Texts => TEXT_FIELDS,
    }
}
