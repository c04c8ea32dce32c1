// Control messages that are read from bytes.
ghost use Rattle.std.specs.Prelude.{◌≡◌, ◌↔◌, ◌%◌, ◌^◌, ◌<◌, ◌≤◌, length, drop, true, All, MatchResult, IfOk, Some};
ghost use Rattle.std.specs.List.{flat_map};
ghost use Rattle.pipe_base.specs.declared.control.Addressed.{Addressed as AnyAddressed};
ghost use Rattle.pipe_codec.specs.declared.bad.Bad.{Bad as AnyBad};
ghost use Rattle.pipe_codec.specs.Control.{announced_bytes, control_bytes, control_fault, length_fits, link_bytes, receiver_number, HasControlKind, IsControl, IsReadAs, IsReceiver, IsWhole};

use crate::control_kind::{ControlKind, kind_at, length_fits};
use crate::place::{six_at, two_at};
use crate::{Bad, ControlFault};
use pipe_base::{
    Addressed, Announced, AnnouncedList, Control, HostId, LinkId, LinkList, List, NoMemory, NodeId,
    SharedList, To, Ts,
};
use std::alloc::Global;

/// The bytes before the contents.
pub const HEADER: usize = 6;

#[tactic(auto, unfolding(crate::specs::Control::control_fault))]
fn read_kind(bytes: &[u8]) -> Result<ControlKind, Bad>
    ensures { MatchResult result (λ kind. HasControlKind kind bytes.now) (λ bad. control_fault bytes.now ≡ Some bad) }
{
    if bytes.len() < HEADER {
        return Err(Bad::Short);
    }
    if bytes[0] != 1 {
        return Err(Bad::Version);
    }
    match kind_at(bytes[1]) {
        Some(kind) => Ok(kind),
        None => Err(Bad::Kind),
    }
}

// The kind, where the bytes are a header and the contents that it tells of.
fn read_header(bytes: &[u8]) -> Result<ControlKind, Bad>
    ensures { MatchResult result (λ kind. IsWhole kind bytes.now) (λ bad. control_fault bytes.now ≡ Some bad) }
{
    let kind = read_kind(bytes)?;
    let len = usize::from(two_at(4, bytes));
    if !length_fits(kind, len) {
        return Err(Bad::Field);
    }
    if bytes.len() != HEADER + len {
        return Err(Bad::Length);
    }
    Ok(kind)
}

fn receiver(number: u16) -> To
    ensures number { receiver_number result ≡ number }
    ensures fits { IsReceiver result }
{
    match number {
        65535 => To::Controller,
        _ => To::Node(NodeId(number)),
    }
}

fn read_announced(alloc: Global, contents: &[u8]) -> Result<AnnouncedList, NoMemory>
    requires { length contents.now % 8 ≡ 0 }
    ensures spelled { IfOk result (λ list. flat_map announced_bytes list ≡ contents.now) }
    ensures fits { IfOk result (λ list. All (λ e. e.time.0 < 2 ^ 48) list × All (λ e. e.host.0 < 2 ^ 16) list) }
{
    let mut list = List::new(alloc);
    let mut rest = contents;
    'entries: while rest.len() >= 8 {
        let (entry, after) = rest.split_at(8);
        list.push(Announced {
            host: HostId(two_at(0, entry)),
            time: Ts(six_at(2, entry)),
        })?;
        rest = after;
    }
    Ok(list)
}

fn read_links(alloc: Global, contents: &[u8]) -> Result<LinkList, NoMemory>
    requires { length contents.now % 2 ≡ 0 }
    ensures spelled { IfOk result (λ links. flat_map link_bytes links ≡ contents.now) }
    ensures fits { IfOk result (λ links. All (λ l. l.0 < 2 ^ 16) links) }
{
    let mut links = List::new(alloc);
    let mut rest = contents;
    'links: while rest.len() >= 2 {
        let (link, after) = rest.split_at(2);
        links.push(LinkId(two_at(0, link)))?;
        rest = after;
    }
    Ok(links)
}

fn read_contents(alloc: Global, kind: ControlKind, contents: &[u8]) -> Result<Control, NoMemory>
    requires { length_fits kind (length contents.now) ≡ true }
    ensures { IfOk result (IsReadAs kind contents.now) }
{
    match kind {
        ControlKind::Down => Ok(Control::Down {
            link: LinkId(two_at(0, contents)),
            value: Ts(six_at(2, contents)),
        }),
        ControlKind::Freeze => Ok(Control::Freeze {
            link: LinkId(two_at(0, contents)),
        }),
        ControlKind::Notice => Ok(Control::Notice {
            list: SharedList::from_list(read_announced(alloc, contents)?)?,
        }),
        ControlKind::Done => Ok(Control::Done {
            host: HostId(two_at(0, contents)),
            count: two_at(2, contents),
        }),
        ControlKind::DropLinks => Ok(Control::DropLinks {
            links: SharedList::from_list(read_links(alloc, contents)?)?,
        }),
        ControlKind::Gone => Ok(Control::Gone {
            node: NodeId(two_at(0, contents)),
            count: two_at(2, contents),
        }),
    }
}

/// The control message that the bytes spell, or the first of their faults. Bytes with a fault take no memory.
pub fn decode_control(alloc: Global, bytes: &[u8]) -> Result<Addressed, ControlFault>
    // The refusal is the first fault, and bytes without a fault are refused only for want of memory.
    ensures fault { (bad : AnyBad) → (result ≡ Err (ControlFault.Bad bad)) ↔ (control_fault bytes.now ≡ Some bad) }
    // What is read is spelled so.
    ensures value { IfOk result (λ a. IsControl a × (control_bytes a ≡ bytes.now)) }
    // What is spelled so is read, unless there is no memory.
    ensures again { (a : AnyAddressed) → IsControl a → control_bytes a ≡ bytes.now
        → MatchResult result (λ found. found ≡ a) (λ fault. fault ≡ ControlFault.NoMemory) }
{
    let kind = read_header(bytes)?;
    let to = receiver(two_at(2, bytes));
    let (_, contents) = bytes.split_at(HEADER);
    let control = read_contents(alloc, kind, contents)?;
    Ok(Addressed { to, control })
}
