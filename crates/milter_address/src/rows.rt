//! Worked addresses, domains and labels, as the definitions compute them.

ghost use Rattle.std.specs.Prelude.{◌≡◌, map};
ghost use Rattle.milter_address.specs.Address.{canonical_address, domain_of};
ghost use Rattle.milter_address.specs.Domain.{canonical_domain, is_under};

/// A text beside what it becomes.
type Row = (&'static [u8], &'static [u8]);

/// Addresses of MAIL FROM and RCPT TO commands, and their canonical forms. The source route is that of RFC 5321, F.2.
pub(crate) const ADDRESSES: [Row; 23] = [
    (b"<NoReply@Example.NET>", b"noreply@example.net"),
    (b"<noreply@example.net.>", b"noreply@example.net"),
    (b"<\"noreply\"@example.net>", b"noreply@example.net"),
    (b"<\"no\\reply\"@example.net>", b"noreply@example.net"),
    (b"noreply@example.net", b"noreply@example.net"),
    (b"<>", b""),
    (b"<@hosta.int,@jkl.org:userc@d.bar.org>", b"userc@d.bar.org"),
    (b"<Postmaster>", b"postmaster"),
    (b"<\"Joe\\ Blow\"@x>", b"\"joe blow\"@x"),
    (b"<\"a\\\"b\"@x>", b"\"a\\\"b\"@x"),
    (b"<\"a@b\"@x>", b"\"a@b\"@x"),
    (b"<\"joe.blow\"@x>", b"joe.blow@x"),
    (b"<\"joe..blow\"@x>", b"\"joe..blow\"@x"),
    (b"<x@[IPv6:2001:DB8::1]>", b"x@[ipv6:2001:db8::1]"),
    (b"<@A:\"X\"@B>", b"x@b"),
    (b"<\"\"@x>", b"\"\"@x"),
    (b"<\"A\"@x@y>", b"\"a\"@x@y"),
    (b"<\"A@x.>", b"\"a@x"),
    (b"<\"J\xC3\x96\"@x>", b"j\xC3\x96@x"),
    (b"<<\"A\"@x>.>", b"a@x"),
    (b"<@A:B>", b"@a:b"),
    (b"<@A:\"B\">", b"@a:\"b\""),
    (b"<@A,B:c@d>", b"@a,b:c@d"),
];

/// Canonical addresses, and their domains.
pub(crate) const DOMAINS: [Row; 5] = [
    (b"noreply@example.net", b"example.net"),
    (b"\"a@b\"@x", b"x"),
    (b"\"a@b\"", b""),
    (b"postmaster", b""),
    (b"", b""),
];

/// A domain.
pub(crate) const PARENT: &[u8] = b"example.org";

/// Domains, and whether they are under that one.
pub(crate) const UNDER: [(&[u8], bool); 7] = [
    (b"example.org", true),
    (b"a.b.example.org", true),
    (b".example.org", true),
    (b"notexample.org", false),
    (b"org", false),
    (b"example.org.net", false),
    (b"", false),
];

/// The definitions on these rows.
pub(crate) fn worked_addresses()
    ensures addresses { map (λ row. canonical_address row.0.now) ADDRESSES ≡ map (λ row. row.1.now) ADDRESSES }
    ensures domains { map (λ row. domain_of row.0.now) DOMAINS ≡ map (λ row. row.1.now) DOMAINS }
    ensures under { map (λ row. is_under row.0.now PARENT.now) UNDER ≡ map (λ row. row.1) UNDER }
{}

#[cfg(test)]
mod tests {
    use super::{ADDRESSES, DOMAINS, PARENT, UNDER};
    use crate::{canonical_address, canonical_domain, domain_of, is_under};
    use std::test::Fail;

    #[test]
    fn addresses_become_canonical(rt: HostRuntime) -> Result<(), Fail> {
        for (text, address) in &ADDRESSES {
            assert_eq!(rt; canonical_address(rt.alloc(), text)?.as_slice(), *address);
        }
        Ok(())
    }

    #[test]
    fn addresses_have_domains(rt: HostRuntime) -> Result<(), Fail> {
        for (address, domain) in &DOMAINS {
            assert_eq!(rt; domain_of(address), *domain);
        }
        assert_eq!(rt;
            canonical_domain(rt.alloc(), b"Example.ORG..")?.as_slice(),
            PARENT
        );
        Ok(())
    }

    #[test]
    fn domains_are_under_their_parent(rt: HostRuntime) {
        for (domain, under) in &UNDER {
            assert_eq!(rt; is_under(domain, PARENT), *under);
        }
    }
}
