//! What is kept of the entries of a list that is being read.

ghost use Rattle.std.specs.Prelude.{◌≡◌, IfErr, OnOk, ℕ, List, Some};
ghost use Rattle.milter_lists.specs.Collected.{IsWithin, has, joined, len_by, nothing, of_key, of_network};
ghost use Rattle.milter_lists.specs.ListValues.{collected_in, kind_in};
ghost use Rattle.milter_lists.specs.ParsedEntries.{IsTooMuchAt, of_parsed};

use crate::entries::Entries;
use crate::entry::Entry;
use crate::entry_fault::EntryFault;
use crate::list_fault::ListFault;
use crate::list_kind::ListKind;
use crate::network_range::range_of;
use crate::network_set::NetworkSet;
use crate::range_set_builder::RangeSetBuilder;
use crate::text_set_builder::{ENTRIES_MAX, TextSetBuilder};
use milter_address::{Address, Network};
use std::alloc::Global;
use std::marker::Model;

/// The keys of addresses, domains and texts, and the ranges of networks.
#[derive(Drop)]
pub(crate) struct ListBuilder {
    keys: TextSetBuilder,
    v4: RangeSetBuilder,
    v6: RangeSetBuilder,
}

impl Model for ListBuilder {
    ghost use Rattle.milter_lists.specs.Collected.{Collected};

    ghost Value = { Collected };

    ghost view = { λ b. record { keys = b.keys; v4 = b.v4; v6 = b.v6 } };
}

impl ListBuilder {
    /// Nothing. Doesn't allocate.
    pub(crate) fn new(alloc: Global) -> Self
        ensures { result ≡ nothing }
    {
        ListBuilder {
            keys: TextSetBuilder::new(alloc),
            v4: RangeSetBuilder::new(alloc),
            v6: RangeSetBuilder::new(alloc),
        }
    }

    /// Adds the entry of a line.
    pub(crate) fn push(&mut self, entry: &Entry, line: u64) -> Result<(), ListFault>
        requires { IsWithin self.old }
        ensures ok { OnOk result (self.new ≡ joined self.old (of_parsed entry.now)) }
        ensures within { OnOk result (IsWithin self.new) }
        ensures fault { IfErr result (IsTooMuchAt line self.old (of_parsed entry.now)) }
    {
        match entry {
            Entry::Key(key) => self.push_key(key.as_slice(), line),
            Entry::Block(network) => self.push_network(*network, line),
        }
    }

    /// Adds the key of the entry of a line.
    fn push_key(&mut self, key: &[u8], line: u64) -> Result<(), ListFault>
        requires { IsWithin self.old }
        ensures ok { OnOk result (self.new ≡ joined self.old (of_key key.now)) }
        ensures within { OnOk result (IsWithin self.new) }
        ensures fault { IfErr result (IsTooMuchAt line self.old (of_key key.now)) }
    {
        match self.keys.push(key) {
            Ok(()) => Ok(()),
            Err(EntryFault::TooManyEntries | EntryFault::TooManyBytes) => {
                Err(ListFault::TooLarge(line))
            }
            Err(EntryFault::NoMemory) => Err(ListFault::NoMemory),
        }
    }

    /// Adds the range of the network of a line.
    fn push_network(&mut self, network: Network, line: u64) -> Result<(), ListFault>
        requires { IsWithin self.old }
        ensures ok { OnOk result (self.new
            ≡ joined self.old (of_network (Some (network.address, network.prefix)))) }
        ensures within { OnOk result (IsWithin self.new) }
        ensures fault { IfErr result
            (IsTooMuchAt line self.old (of_network (Some (network.address, network.prefix)))) }
    {
        if self.v4.len() + self.v6.len() == ENTRIES_MAX {
            return Err(ListFault::TooLarge(line));
        }
        let last_bits = u32::from(network.address.bits() - network.prefix);
        match network.address {
            Address::V4(number) => self.v4.push(range_of(number.into(), last_bits))?,
            Address::V6(number) => self.v6.push(range_of(number, last_bits))?,
        }
        Ok(())
    }

    /// The entries of a list of this kind, as they are searched. Doesn't allocate.
    pub(crate) fn build(self, kind: ListKind) -> Entries
        ensures kind { kind_in result ≡ kind }
        ensures len { len_by kind (collected_in result) ≡ len_by kind self }
        ensures has { (value : List ℕ) → has kind (collected_in result) value ≡ has kind self value }
    {
        let ListBuilder { keys, v4, v6 } = self;
        match kind {
            ListKind::Addresses => Entries::Addresses(keys.build()),
            ListKind::Domains => Entries::Domains(keys.build()),
            ListKind::Networks => Entries::Networks(NetworkSet {
                v4: v4.build(),
                v6: v6.build(),
            }),
            ListKind::Texts => Entries::Texts(keys.build()),
        }
    }
}
