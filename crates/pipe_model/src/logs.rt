// The logs of all hosts, collected in one pass over a trace.
ghost use Rattle.std.specs.Prelude.{◌≡◌, ◌∷◌, [], List, length, reverse, IfOk, OnOk};
ghost use Rattle.pipe_model.specs.declared.record.Record.{Record};
ghost use Rattle.pipe_graph.specs.Graph.{Graph};
ghost use Rattle.pipe_model.specs.Collected.{AreLogs, Grows};

use crate::acting::actor;
use crate::{Record, Trace};
use pipe_base::{Entry, Link, NoMemory, Service};
use std::alloc::Global;

/// The entries of one host, service by service, in order.
#[derive(Drop)]
pub struct Log<'a> {
    pub best: Vec<&'a Entry>,
    pub reliable: Vec<&'a Entry>,
}

fn add<'a>(log: &mut Log<'a>, logged: &'a [(Service, Entry)]) -> Result<(), NoMemory>
    ensures { OnOk result (Grows logged.now log.old log.new) }
{
    'logged: for (service, entry) in logged {
        match service {
            Service::BestEffort => log.best.push(entry)?,
            Service::Reliable => log.reliable.push(entry)?,
        }
    }
    Ok(())
}

fn empty_logs<'a>(alloc: Global, hosts: u16) -> Result<Vec<Log<'a>>, NoMemory>
    ensures size { IfOk result (λ all. length all.items ≡ hosts) }
    ensures logs { IfOk result (λ all. (graph : Graph) → AreLogs graph hosts [] all.items) }
{
    let mut all = Vec::with_capacity(alloc, usize::from(hosts))?;
    'hosts: for _ in 0..hosts {
        all.push(Log {
            best: Vec::new(alloc),
            reliable: Vec::new(alloc),
        })?;
    }
    Ok(all)
}

fn add_record<'a>(
    links: &[Link],
    hosts: u16,
    all: &mut [Log<'a>],
    happened: &'a Record,
) -> Result<(), NoMemory>
    requires { length all.old ≡ hosts }
    ensures { OnOk result ((graph : Graph) (past : List Record) → graph.links ≡ links.now
        → AreLogs graph hosts past all.old → AreLogs graph hosts (happened.now ∷ past) all.new) }
{
    match actor(links, happened) {
        Some(node) if node.0 < hosts => {
            add(&mut all[usize::from(node.0)], happened.step.logged())
        }
        _ => Ok(()),
    }
}

/// The logs of so many hosts over a trace, in a network with these links.
pub fn collect_logs<'a>(
    alloc: Global,
    links: &[Link],
    hosts: u16,
    trace: &'a Trace,
) -> Result<Vec<Log<'a>>, NoMemory>
    ensures size { IfOk result (λ all. length all.items ≡ hosts) }
    ensures logs { IfOk result (λ all. (graph : Graph) → graph.links ≡ links.now
        → AreLogs graph hosts (reverse trace.now) all.items) }
{
    let mut all = empty_logs(alloc, hosts)?;
    'records: for record in trace.as_slice() {
        add_record(links, hosts, &mut all, record)?;
    }
    Ok(all)
}
