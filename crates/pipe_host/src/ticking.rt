// How a host works out a tick.
ghost use Rattle.std.specs.Prelude.{◌≡◌, ◌++◌, [], ℕ, List, true, length, IfOk, OnErr, OnOk};
ghost use Rattle.pipe_base.specs.declared.name.NodeId.{NodeId};
ghost use Rattle.pipe_graph.specs.Graph.{Graph, ins_of};
ghost use Rattle.pipe_base.specs.Moment.{with_downed};
ghost use Rattle.pipe_base.specs.Scattering.{SenderCall};
ghost use Rattle.pipe_base.specs.Settled.{unsettled};
ghost use Rattle.pipe_barrier.specs.Registers.{downs};
ghost use Rattle.pipe_model.specs.declared.record.Record.{Record};
ghost use Rattle.pipe_model.specs.Duties.{done_told, gone_told};
ghost use Rattle.pipe_model.specs.Moments.{moments_of};
ghost use Rattle.pipe_model.specs.Sender.{sender_calls};
ghost use Rattle.pipe_relsend.specs.Sending as sending;
ghost use Rattle.pipe_host.specs.Buffers.{logged_by};
ghost use Rattle.pipe_host.specs.Host.{Stands, Works};
ghost use Rattle.pipe_host.specs.Steps.{beat, fields_ticked};
ghost use Rattle.pipe_model.specs.Records.{ticked};

use crate::host::Host;
use crate::times::deliver;
use pipe_barrier::Barriers;
use pipe_base::{
    Addressed, AddressedList, Control, DownList, HostId, KeptStep, NoMemory, Step, To, Ts,
};

impl Host {
    /// Works out what a tick does. Nothing changes. Links that were silent for the patience go down, and what the barriers
    /// pass then is logged. With the host's promises after that, the messages and recalls are put again for which an answer is
    /// missing, and then a beacon on each link out of the host that is not known as dropped. The controller is told of each
    /// in-link that is down then and not dropped, how many failed hosts are noted, unless something is being recalled, and how
    /// many links are known as dropped.
    pub fn work_tick(&self, now: Ts) -> Result<KeptStep, NoMemory>
        ensures { IfOk result (λ step. (graph : Graph) (node : NodeId) (own : List Record)
            → Stands graph node.0 own self.now
            → Works graph node.0 own (ticked node now step) self.now) }
    {
        let downed = self.links.silent_marks(self.alloc, now)?;
        let told = self.told(&downed)?;
        let barriers = self.links.barriers_without(&downed)?;
        if downed.is_empty() && told.is_empty() && self.is_at_rest(barriers) {
            return self.beat(now);
        }
        self.beat_in_full(now, downed, told, barriers)
    }

    /// Whether these barriers let nothing out and nothing is to be put again.
    fn is_at_rest(&self, barriers: Barriers) -> bool
        ensures settled { result ≡ true → (calls : List SenderCall) → sending.Stands calls self.now.sender
            → length (unsettled calls) ≡ 0 }
        ensures quiet { result ≡ true → logged_by barriers self.now.held ≡ [] }
    {
        self.sender.unsettled() == 0 && !self.held.has_below(barriers)
    }

    /// The step of a tick that leads to beacons alone. It takes no step in lists.
    fn beat(&self, now: Ts) -> Result<KeptStep, NoMemory>
        ensures { IfOk result (λ step. (graph : Graph) (node : NodeId) (own : List Record)
            → Stands graph node.0 own self.now → length (unsettled (sender_calls graph node.0 own)) ≡ 0
            → step ≡ beat graph node.0 own (fields_ticked graph node.0 own now []) [] [] []) }
    {
        let mut clock = self.clock;
        clock.tick(now);
        let next = clock.next();
        self.links
            .send_beacons(self.alloc, next, self.sender.promise(next))
    }

    /// The step of a tick that takes these links down, tells the controller this, and leads to these barriers.
    fn beat_in_full(
        &self,
        now: Ts,
        downed: DownList,
        told: AddressedList,
        barriers: Barriers,
    ) -> Result<KeptStep, NoMemory>
        ensures { IfOk result (λ step. (graph : Graph) (node : NodeId) (own : List Record)
            → Stands graph node.0 own self.now
            → step ≡ beat graph node.0 own (fields_ticked graph node.0 own now (logged_by barriers self.now.held)) downed told (logged_by barriers self.now.held)) }
    {
        let mut step = Step::new(self.alloc);
        step.downed = downed;
        step.control = told;
        self.held.copy_passed(barriers, &mut step.logged)?;
        let mut clock = self.clock;
        clock.tick(now);
        deliver(&mut clock, step.logged.as_slice());
        let next = clock.next();
        let src = HostId(self.links.node().0);
        let routes = self.links.routes();
        self.sender.resends(src, next, routes, &mut step)?;
        let promise = self.sender.promise(next);
        self.links
            .put_beacons(self.alloc, next, promise, &mut step)?;
        step.keep(self.alloc)
    }

    /// What the controller is told at a tick that takes these links down.
    fn told(&self, marks: &DownList) -> Result<AddressedList, NoMemory>
        ensures { IfOk result (λ told. (graph : Graph) (node : ℕ) (own : List Record) → Stands graph node own self.now
            → told ≡ (downs (ins_of graph node) (with_downed marks.now (moments_of graph node own)) ++ done_told graph node own) ++ gone_told node own) }
    {
        let mut told = self.links.downs_with(self.alloc, marks)?;
        self.tell_done(&mut told)?;
        self.links.tell_gone(&mut told)?;
        Ok(told)
    }

    /// Tells the controller how many failed hosts are noted, where there are any and nothing more is to be taken back.
    fn tell_done(&self, told: &mut AddressedList) -> Result<(), NoMemory>
        ensures ok { OnOk result ((graph : Graph) (node : ℕ) (own : List Record) → Stands graph node own self.now
            → told.new ≡ told.old ++ done_told graph node own) }
        ensures err { OnErr result (told.new ≡ told.old) }
    {
        let count = self.held.noted().count();
        if count == 0 || self.sender.is_recalling() {
            return Ok(());
        }
        told.push(Addressed {
            to: To::Controller,
            control: Control::Done {
                host: HostId(self.links.node().0),
                count: count as u16,
            },
        })
    }
}
