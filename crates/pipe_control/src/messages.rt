// What the controller puts after a decision.
ghost use Rattle.std.specs.Prelude.{◌≡◌, ◌++◌, ◌<◌, length, IfOk, OnOk};
ghost use Rattle.pipe_base.specs.declared.control.Control.TheVariants.{DropLinks, Notice};
ghost use Rattle.pipe_base.specs.declared.control.To.TheVariants.{Node};
ghost use Rattle.pipe_control.specs.Known.{Fits, view_of};
ghost use Rattle.pipe_model.specs.Decision.{drops, freeze, freezes, is_behind, is_frozen, lags, messages, notices};

use crate::Controller;
use crate::due::{is_due, is_kept};
use pipe_base::{
    Addressed, AddressedList, Announced, Control, LinkId, List, NoMemory, NodeId, SharedList, To,
};
use pipe_topo::Topology;

impl Controller {
    // The freezes in the order of their links, the notices in the order of their hosts, and then the dropped links in the
    // order of their nodes.
    pub(crate) fn messages(&self, topology: &Topology) -> Result<AddressedList, NoMemory>
        requires { Fits topology.now self.now }
        ensures { IfOk result (λ put. put ≡ messages topology.now (view_of self.now)) }
    {
        let mut put = List::new(self.alloc);
        self.put_freezes(topology, &mut put)?;
        self.put_notices(topology, &mut put)?;
        self.put_drops(topology, &mut put)?;
        Ok(put)
    }

    // The heads of the intact links out of hosts that are due take these down.
    fn put_freezes(&self, topology: &Topology, put: &mut AddressedList) -> Result<(), NoMemory>
        requires { Fits topology.now self.now }
        ensures { OnOk result (put.new ≡ put.old ++ freezes topology.now (view_of self.now)) }
    {
        for link in 0..topology.links() {
            if self.is_frozen(topology, LinkId(link)) {
                put.push(freeze(topology, LinkId(link)))?;
            }
        }
        Ok(())
    }

    fn is_frozen(&self, topology: &Topology, link: LinkId) -> bool
        requires fits { Fits topology.now self.now }
        requires link { link.0 < length topology.now.links }
        ensures { result ≡ is_frozen topology.now (view_of self.now) link }
    {
        self.live.has(link)
            && self.reports.value(link).is_none()
            && is_due(&self.doomed, &self.announced, topology.tail(link))
    }

    // Each kept host that has not said that it noted all is told all that are announced.
    fn put_notices(&self, topology: &Topology, put: &mut AddressedList) -> Result<(), NoMemory>
        ensures { OnOk result (put.new ≡ put.old ++ notices topology.now (view_of self.now)) }
    {
        for host in 0..topology.hosts() {
            if self.is_behind(NodeId(host)) {
                put.push(notice(host, &self.announced)?)?;
            }
        }
        Ok(())
    }

    fn is_behind(&self, host: NodeId) -> bool
        ensures { result ≡ is_behind (view_of self.now) host.0 }
    {
        is_kept(&self.members, &self.doomed, host)
            && usize::from(self.done.of(host.0)) < self.announced.len()
    }

    // Each half and each kept host that has not said that it knows all is told all dropped links.
    fn put_drops(&self, topology: &Topology, put: &mut AddressedList) -> Result<(), NoMemory>
        ensures { OnOk result (put.new ≡ put.old ++ drops topology.now (view_of self.now)) }
    {
        for node in 0..topology.nodes() {
            if self.lags(topology, NodeId(node)) {
                put.push(drop_links(NodeId(node), &self.dropped)?)?;
            }
        }
        Ok(())
    }

    fn lags(&self, topology: &Topology, node: NodeId) -> bool
        ensures { result ≡ lags topology.now (view_of self.now) node.0 }
    {
        (topology.is_half(node) || is_kept(&self.members, &self.doomed, node))
            && usize::from(self.gone.of(node.0)) < self.dropped.len()
    }
}

// The head of the link is to take it down.
fn freeze(topology: &Topology, link: LinkId) -> Addressed
    requires { link.0 < length topology.now.links }
    ensures { result ≡ freeze topology.now link }
{
    Addressed {
        to: To::Node(topology.head(link)),
        control: Control::Freeze { link },
    }
}

fn notice(host: u16, announced: &SharedList<Announced>) -> Result<Addressed, NoMemory>
    ensures { IfOk result (λ a. a ≡ record { to = Node (record { 0 = host }); control = Notice announced.now }) }
{
    Ok(Addressed {
        to: To::Node(NodeId(host)),
        control: Control::Notice {
            list: announced.try_clone()?,
        },
    })
}

fn drop_links(node: NodeId, dropped: &SharedList<LinkId>) -> Result<Addressed, NoMemory>
    ensures { IfOk result (λ a. a ≡ record { to = Node node; control = DropLinks dropped.now }) }
{
    Ok(Addressed {
        to: To::Node(node),
        control: Control::DropLinks {
            links: dropped.try_clone()?,
        },
    })
}
