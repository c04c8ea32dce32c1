// What no clause says: that worlds and steps succeed with ample memory. Traces worked out by hand are in `.ci`.

use pipe_base::{Body, HostId, LinkId, List, NodeId, Service, Ts};
use pipe_model::Event;
use pipe_topo::{Plan, TopoFault, Topology};
use pipe_world::World;
use std::alloc::Global;
use std::process::Abort;
use std::test::Fail;

/// An event on a star: a sender with a reading and a receiver, a node with a reading, or a link.
#[derive(Clone, Copy)]
enum Act {
    Send(u16, u64, u16),
    Tick(u16, u64),
    Take(u16),
}

// Links of a star of two hosts: 0 and 2 lead from the hosts up, 4 is the loop, 1 and 3 lead down to the hosts. Node 2 is the
// up half. The link from h1 is silent for the patience of 100.
static ACTS: [Act; 11] = [
    Act::Send(0, 10, 1),
    Act::Take(0),
    Act::Tick(0, 60),
    Act::Take(0),
    Act::Tick(2, 50),
    Act::Tick(0, 60),
    Act::Take(0),
    Act::Tick(2, 149),
    Act::Tick(2, 150),
    Act::Tick(1, 70),
    Act::Take(2),
];

static WAITING: [(u16, u32); 5] = [(0, 0), (1, 0), (2, 0), (3, 0), (4, 4)];

fn star(rt: &impl Abort, alloc: Global) -> Result<World, TopoFault> {
    let plan = Plan::star(alloc, 2, Ts(100))?;
    assert!(rt; plan.has_ends() && plan.levels.len() < 1000 && plan.cables.len() < 1000);
    Ok(World::new(alloc, Topology::build(alloc, &plan)?)?)
}

fn send(
    rt: &impl Abort,
    alloc: Global,
    world: &mut World,
    host: u16,
    now: u64,
    receiver: u16,
) -> Result<(), Fail> {
    let mut dests = List::new(alloc);
    dests.push((HostId(receiver), Body::empty(alloc)))?;
    assert!(rt; host < world.topology().hosts());
    assert!(rt; receiver < world.topology().hosts());
    assert!(rt; now <= world.topology().top().0);
    world.step(Event::Send {
        host: HostId(host),
        service: Service::BestEffort,
        now: Ts(now),
        dests,
    })?;
    Ok(())
}

fn play(rt: &impl Abort, alloc: Global, world: &mut World, act: Act) -> Result<(), Fail> {
    match act {
        Act::Send(host, now, receiver) => send(rt, alloc, world, host, now, receiver)?,
        Act::Tick(node, now) => {
            assert!(rt; node < world.topology().nodes());
            assert!(rt; now <= world.topology().top().0);
            world.step(Event::Tick {
                node: NodeId(node),
                now: Ts(now),
            })?;
        }
        Act::Take(link) => {
            assert!(rt; link < world.topology().links());
            world.step(Event::Take {
                link: LinkId(link),
                place: 0,
                keep: false,
            })?;
        }
    }
    Ok(())
}

fn play_all(rt: &impl Abort, alloc: Global, world: &mut World) -> Result<(), Fail> {
    for act in &ACTS {
        play(rt, alloc, world, *act)?;
    }
    Ok(())
}

fn look(rt: &impl Abort, world: &World) {
    for (link, count) in &WAITING {
        assert!(rt; *link < world.topology().links());
        assert!(rt; world.waiting(LinkId(*link)) == *count);
    }
    assert!(rt; world.topology().nodes() == 4 && world.topology().hosts() == 2);
    assert!(rt; world.topology().is_half(NodeId(2)));
    let registers = world.half(NodeId(2)).registers();
    assert!(rt; registers.be() == Ts(60) && registers.commit() == Ts(0));
    assert!(rt; world.host(HostId(0)).next() == Ts(60));
    assert!(rt; world.trace().len() == ACTS.len() && world.items() == 9);
}

#[test]
fn steps_with_ample_memory(rt: HostRuntime) -> Result<(), Fail> {
    let mut world = star(&rt, rt.alloc())?;
    play_all(&rt, rt.alloc(), &mut world)?;
    look(&rt, &world);
    Ok(())
}
