// A set of hosts.
ghost use Rattle.std.specs.Prelude.{◌≡◌, ◌-◌, ◌<◌, ◌≤◌, ◌++◌, Bool, List, length, replicate, slice_set, true, false};
ghost use Rattle.pipe_topo.specs.Sets.{has};
ghost use Rattle.pipe_base.specs.Limits.{most_hosts};

use pipe_base::{HostId, NodeId};
use std::marker::Model;

/// A set of host numbers below 64. Contracts see the answer for each of them.
#[derive(Clone, Copy)]
pub struct HostSet {
    bits: u64,
}

impl Model for HostSet {
    ghost use Rattle.std.specs.Prelude.{◌<◌, ◌^◌, Bool, List};
    ghost use Rattle.pipe_topo.specs.Digits.{digits, number_of, number_of-digits};

    ghost Value = { List Bool };

    ghost view = { λ s. digits 64 s.bits };

    ghost invariant = { λ s. s.bits < 2 ^ 64 };

    ghost inverse = { λ d. record { bits = number_of d } };

    ghost inverse_ok = { λ s h. λ i. record { bits = number_of-digits 64 s.bits h i } };
}

impl HostSet {
    /// The empty set.
    pub fn none() -> HostSet
        ensures { result ≡ replicate 64 false }
    {
        HostSet { bits: 0 }
    }

    /// The hosts below `hosts`.
    pub fn first(hosts: u16) -> HostSet
        requires { hosts ≤ most_hosts }
        ensures { result ≡ replicate hosts true ++ replicate (64 - hosts) false }
    {
        if hosts == 64 {
            HostSet { bits: u64::MAX }
        } else {
            HostSet {
                bits: (1 << hosts) - 1,
            }
        }
    }

    pub fn insert(&mut self, host: HostId)
        requires { host.0 < most_hosts }
        ensures { self.new ≡ slice_set self.old host.0 true }
    {
        self.bits |= 1 << host.0;
    }

    pub fn remove(&mut self, host: HostId)
        requires { host.0 < most_hosts }
        ensures { self.new ≡ slice_set self.old host.0 false }
    {
        self.bits &= !(1 << host.0);
    }

    pub fn has(&self, host: HostId) -> bool
        requires { host.0 < most_hosts }
        ensures { result ≡ has self.now host.0 }
    {
        self.bits & (1 << host.0) != 0
    }

    /// Whether the node is a host of the set. Any node may be asked for.
    pub fn has_node(&self, node: NodeId) -> bool
        ensures { result ≡ has self.now node.0 }
    {
        let hosts = self.copy();
        node.0 < 64 && hosts.has(HostId(node.0))
    }

    /// The same set. Contracts learn that it has an answer for each of 64 numbers, and no more.
    pub fn copy(&self) -> HostSet
        ensures value { result ≡ self.now }
        ensures size { length result ≡ 64 }
    {
        HostSet { bits: self.bits }
    }
}
