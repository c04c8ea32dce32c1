// The logs as text.
ghost use Rattle.std.specs.Prelude.{◌≡◌, ◌++◌, ◌<◌, ℕ, List, length, reverse, IfOk, OnOk};
ghost use Rattle.pipe_graph.specs.Graph.{Graph};
ghost use Rattle.pipe_model.specs.declared.record.Record.{Record};
ghost use Rattle.pipe_model.specs.Collected.{entries, AreLogs, AreLogsOf};
ghost use Rattle.pipe_text_log.specs.LogText.{service_text, host_text, hosts_text, log_text};

use pipe_base::{Entry, List, NoMemory, Service};
use pipe_model::{Log, Trace, collect_logs};
use pipe_text::{Text, print_log_head, print_log_line};
use pipe_topo::{NodeNames, Topology};
use std::alloc::Global;

fn print_service(
    out: &mut Vec<u8>,
    names: &NodeNames,
    host: u16,
    service: Service,
    log: &[&Entry],
) -> Result<(), NoMemory>
    ensures { OnOk result (out.new.items ≡ out.old.items ++ service_text names.now host service (entries log.now)) }
{
    print_log_head(out, names.name(host), service, log.len())?;
    'entries: for entry in log {
        print_log_line(
            out,
            entry.key.ts,
            names.name(entry.key.src.0),
            entry.body.bytes(),
        )?;
    }
    Ok(())
}

fn print_host(
    out: &mut Vec<u8>,
    names: &NodeNames,
    host: u16,
    log: &Log<'_>,
) -> Result<(), NoMemory>
    ensures { OnOk result ((graph : Graph) (past : List Record) → AreLogsOf graph past host log.now
        → out.new.items ≡ out.old.items ++ host_text names.now graph past host) }
{
    print_service(out, names, host, Service::BestEffort, log.best.as_slice())?;
    print_service(out, names, host, Service::Reliable, log.reliable.as_slice())
}

fn print_hosts(
    out: &mut Vec<u8>,
    names: &NodeNames,
    hosts: u16,
    all: &[Log<'_>],
) -> Result<(), NoMemory>
    requires { length all.now ≡ hosts }
    ensures { OnOk result ((graph : Graph) (past : List Record) → AreLogs graph hosts past all.now
        → out.new.items ≡ out.old.items ++ hosts_text names.now graph past hosts) }
{
    'hosts: for host in 0..hosts {
        print_host(out, names, host, &all[usize::from(host)])?;
    }
    Ok(())
}

/// The logs of all hosts over a trace of the network, in one pass over the trace.
pub fn print_logs(
    alloc: Global,
    names: &NodeNames,
    topology: &Topology,
    trace: &Trace,
) -> Result<Text, NoMemory>
    ensures { IfOk result (λ text. text ≡ log_text names.now topology.now (reverse trace.now)) }
{
    let hosts = topology.hosts();
    let all = collect_logs(alloc, topology.ends(), hosts, trace)?;
    let mut out = Vec::new(alloc);
    print_hosts(&mut out, names, hosts, &all)?;
    Ok(List::from_vec(out))
}
