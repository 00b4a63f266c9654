//! What a filter is shown.

ghost use Rattle.std.specs.Prelude.{◌≡◌, ◌≢◌, IfSome, IsSomeAnd, MatchOption, Some, length};
ghost use Rattle.milter_protocol.specs.Seen.{value_in};
ghost use Rattle.milter_c_objects.specs.Shown.{client_endpoint, header_name_at, header_value_at, host_in, recipient_at, sender_address_in};
ghost use Rattle.milter_c_objects.specs.Objects.{IsKept, filter_of};
ghost use Rattle.milter_c.specs.Filters.{seen_of};
ghost use Rattle.milter_c.specs.Statuses.{kind_status};
ghost use Rattle.milter_c.specs.Views.{IsBorrowed};

use crate::view::{View, borrow, let_object};
use milter_c_objects::status::{NOTHING, OK, WRONG_KIND};
use milter_c_objects::{
    Handle, Object, client_address, client_host, header_name, header_value, recipient_address,
    sender_address,
};

/// The name of the client's host. Doesn't allocate.
#[unsafe(no_mangle)]
pub extern "C" fn deiruska_filter_host<'a>(filter: &'a mut Handle, out: &mut View<'a>) -> i32
    ensures host { MatchOption (filter_of filter.old) (result ≡ WRONG_KIND) (λ old.
        IsBorrowed (host_in (seen_of old)) result out.old out.new) }
    ensures unwritten { result ≢ OK → out.new ≡ out.old }
{
    let_object!(connection: Filter = filter);
    borrow(client_host(connection.seen()), out)
}

/// The client's address as text, its family and its port, where they are known. Doesn't allocate.
#[unsafe(no_mangle)]
pub extern "C" fn deiruska_filter_address<'a>(
    filter: &'a mut Handle,
    out: &mut View<'a>,
    family: &mut u32,
    port: &mut u32,
) -> i32
    ensures address { MatchOption (filter_of filter.old) (result ≡ WRONG_KIND) (λ old.
        MatchOption (client_endpoint (seen_of old).client) (result ≡ NOTHING) (λ known. (result ≡ OK)
        × (out.new.bytes.now ≡ known.text) × (family.new ≡ known.family) × (port.new ≡ known.port))) }
    ensures unwritten { result ≢ OK → out.new ≡ out.old }
    ensures unwritten_family { result ≢ OK → family.new ≡ family.old }
    ensures unwritten_port { result ≢ OK → port.new ≡ port.old }
{
    let_object!(connection: Filter = filter);
    let Some(address) = client_address(connection.seen()) else {
        return NOTHING;
    };
    out.bytes = address.text;
    *family = address.family;
    *port = u32::from(address.port);
    OK
}

/// The name that the client gave at HELO or EHLO. Doesn't allocate.
#[unsafe(no_mangle)]
pub extern "C" fn deiruska_filter_helo<'a>(filter: &'a mut Handle, out: &mut View<'a>) -> i32
    ensures helo { MatchOption (filter_of filter.old) (result ≡ WRONG_KIND) (λ old.
        IsBorrowed (seen_of old).helo result out.old out.new) }
    ensures unwritten { result ≢ OK → out.new ≡ out.old }
{
    let_object!(connection: Filter = filter);
    borrow(connection.seen().helo(), out)
}

/// The address of the sender. Doesn't allocate.
#[unsafe(no_mangle)]
pub extern "C" fn deiruska_filter_sender<'a>(filter: &'a mut Handle, out: &mut View<'a>) -> i32
    ensures sender { MatchOption (filter_of filter.old) (result ≡ WRONG_KIND) (λ old.
        IsBorrowed (sender_address_in (seen_of old)) result out.old out.new) }
    ensures unwritten { result ≢ OK → out.new ≡ out.old }
{
    let_object!(connection: Filter = filter);
    borrow(sender_address(connection.seen()), out)
}

/// How many recipients came. Doesn't allocate.
#[unsafe(no_mangle)]
pub extern "C" fn deiruska_filter_recipients(filter: &mut Handle, count: &mut usize) -> i32
    ensures count { result ≡ OK → IsSomeAnd (filter_of filter.old) (λ old.
        count.new ≡ length (seen_of old).recipients) }
    ensures kept { IsKept filter.old filter.new }
    ensures unwritten { result ≢ OK → count.new ≡ count.old }
    ensures status { result ≡ kind_status (filter_of filter.old) }
{
    let_object!(connection: Filter = filter);
    *count = connection.seen().recipients().len();
    OK
}

/// The address of the recipient at a place. Doesn't allocate.
#[unsafe(no_mangle)]
pub extern "C" fn deiruska_filter_recipient<'a>(
    filter: &'a mut Handle,
    place: usize,
    out: &mut View<'a>,
) -> i32
    ensures recipient { MatchOption (filter_of filter.old) (result ≡ WRONG_KIND) (λ old.
        IsBorrowed (recipient_at (seen_of old) place) result out.old out.new) }
    ensures unwritten { result ≢ OK → out.new ≡ out.old }
{
    let_object!(connection: Filter = filter);
    borrow(recipient_address(connection.seen(), place), out)
}

/// How many header fields came. Doesn't allocate.
#[unsafe(no_mangle)]
pub extern "C" fn deiruska_filter_headers(filter: &mut Handle, count: &mut usize) -> i32
    ensures count { result ≡ OK → IsSomeAnd (filter_of filter.old) (λ old.
        count.new ≡ length (seen_of old).headers) }
    ensures kept { IsKept filter.old filter.new }
    ensures unwritten { result ≢ OK → count.new ≡ count.old }
    ensures status { result ≡ kind_status (filter_of filter.old) }
{
    let_object!(connection: Filter = filter);
    *count = connection.seen().headers().len();
    OK
}

/// The name of the header field at a place. Doesn't allocate.
#[unsafe(no_mangle)]
pub extern "C" fn deiruska_filter_header_name<'a>(
    filter: &'a mut Handle,
    place: usize,
    out: &mut View<'a>,
) -> i32
    ensures name { MatchOption (filter_of filter.old) (result ≡ WRONG_KIND) (λ old.
        IsBorrowed (header_name_at (seen_of old) place) result out.old out.new) }
    ensures unwritten { result ≢ OK → out.new ≡ out.old }
{
    let_object!(connection: Filter = filter);
    borrow(header_name(connection.seen(), place), out)
}

/// The value of the header field at a place. Doesn't allocate.
#[unsafe(no_mangle)]
pub extern "C" fn deiruska_filter_header_value<'a>(
    filter: &'a mut Handle,
    place: usize,
    out: &mut View<'a>,
) -> i32
    ensures value { MatchOption (filter_of filter.old) (result ≡ WRONG_KIND) (λ old.
        IsBorrowed (header_value_at (seen_of old) place) result out.old out.new) }
    ensures unwritten { result ≢ OK → out.new ≡ out.old }
{
    let_object!(connection: Filter = filter);
    borrow(header_value(connection.seen(), place), out)
}

/// The body so far. Doesn't allocate.
#[unsafe(no_mangle)]
pub extern "C" fn deiruska_filter_body<'a>(filter: &'a mut Handle, out: &mut View<'a>) -> i32
    ensures body { result ≡ OK → IsSomeAnd (filter_of filter.old) (λ old. out.new.bytes.now ≡ (seen_of old).body) }
    ensures unwritten { result ≢ OK → out.new ≡ out.old }
    ensures status { result ≡ kind_status (filter_of filter.old) }
{
    let_object!(connection: Filter = filter);
    out.bytes = connection.seen().body();
    OK
}

/// The last value of a macro of this name. Doesn't allocate.
#[unsafe(no_mangle)]
pub extern "C" fn deiruska_filter_macro<'a>(
    filter: &'a mut Handle,
    name: &[u8],
    out: &mut View<'a>,
) -> i32
    ensures value { MatchOption (filter_of filter.old) (result ≡ WRONG_KIND) (λ old.
        IsBorrowed (value_in (seen_of old).macros name.now) result out.old out.new) }
    ensures unwritten { result ≢ OK → out.new ≡ out.old }
{
    let_object!(connection: Filter = filter);
    borrow(connection.seen().macro_value(name), out)
}
