// Which hosts must go, and which of them are announced.
ghost use Rattle.std.specs.Prelude.{◌≡◌, ◌<◌, IfOk, OnOk};
ghost use Rattle.pipe_control.specs.Known.{Fits, Stands, leaving_time, view_of};
ghost use Rattle.pipe_model.specs.Decision.{after_announce, after_doom, newly_announced};
ghost use Rattle.pipe_model.specs.View.{is_kept};
ghost use Rattle.pipe_topo.specs.Sets.{has};

use crate::Controller;
use crate::due::{is_due, kept};
use crate::lists::more_announced;
use pipe_base::{Announced, AnnouncedList, HostId, List, NoMemory, NodeId, Ts};
use pipe_failtime::{doomed, failure_time, is_cut};
use pipe_topo::{HostSet, Topology};

impl Controller {
    // Works out which hosts must go by the reports so far.
    pub(crate) fn doom(&mut self, topology: &Topology) -> Result<(), NoMemory>
        requires { Fits topology.now self.old }
        ensures { OnOk result (Stands topology.now (after_doom topology.now (view_of self.old)) self.new) }
    {
        self.doomed = doomed(
            self.alloc,
            topology,
            &self.members,
            &self.live,
            &self.reports,
            &self.doomed,
        )?;
        Ok(())
    }

    // Announces the hosts that are due, as soon as all of them can go. Answers them.
    pub(crate) fn announce(&mut self, topology: &Topology) -> Result<AnnouncedList, NoMemory>
        requires { Fits topology.now self.old }
        ensures news { IfOk result (λ news. news ≡ newly_announced topology.now (view_of self.old)) }
        ensures known { OnOk result (Stands topology.now (after_announce topology.now (view_of self.old)) self.new) }
    {
        let news = self.news(topology)?;
        self.announced = more_announced(self.alloc, &self.announced, &news)?;
        Ok(news)
    }

    // The hosts that are due with their times, or none where one of them can't go yet.
    fn news(&self, topology: &Topology) -> Result<AnnouncedList, NoMemory>
        requires { Fits topology.now self.now }
        ensures { IfOk result (λ news. news ≡ newly_announced topology.now (view_of self.now)) }
    {
        let kept = kept(&self.members, &self.doomed);
        let mut news = List::new(self.alloc);
        for host in 0..topology.hosts() {
            if is_due(&self.doomed, &self.announced, NodeId(host)) {
                match self.leaving_time(topology, &kept, HostId(host))? {
                    Some(time) => news.push(announced_at(host, time))?,
                    None => return Ok(List::new(self.alloc)),
                }
            }
        }
        Ok(news)
    }

    // The time of a host that can be announced: it is cut off from the kept hosts, and has one.
    fn leaving_time(
        &self,
        topology: &Topology,
        kept: &HostSet,
        host: HostId,
    ) -> Result<Option<Ts>, NoMemory>
        requires fits { Fits topology.now self.now }
        requires host { host.0 < topology.now.hosts }
        requires kept { has kept.now ≡ is_kept (view_of self.now) }
        ensures { IfOk result (λ time. time ≡ leaving_time topology.now (view_of self.now) host.0) }
    {
        if is_cut(self.alloc, topology, host, &self.live, &self.reports, kept)? {
            failure_time(self.alloc, topology, host, &self.live, &self.reports)
        } else {
            Ok(None)
        }
    }
}

fn announced_at(host: u16, time: Ts) -> Announced
    ensures { result ≡ record { host = record { 0 = host }; time = time } }
{
    Announced {
        host: HostId(host),
        time,
    }
}
