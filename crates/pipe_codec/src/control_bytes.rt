// Control messages that are written as bytes.
ghost use Rattle.std.specs.Prelude.{◌≡◌, ◌+◌, ◌*◌, ◌++◌, ◌^◌, ◌<◌, ◌≤◌, length, take, drop};
ghost use Rattle.std.specs.List.{flat_map};
ghost use Rattle.pipe_codec.specs.Number.{two_bytes, six_bytes};
ghost use Rattle.pipe_codec.specs.Control.{announced_bytes, contents_bytes, control_bytes, control_header, control_kind, link_bytes, receiver_number, HasContents, IsSendableControl};

use crate::control::HEADER;
use crate::control_kind::{code_of, kind_of};
use crate::place::{put, six_bytes};
use pipe_base::{Addressed, Announced, Control, LinkId, To, Ts};

fn number_of(to: To) -> u16
    ensures { result ≡ receiver_number to }
{
    match to {
        To::Controller => 65535,
        To::Node(node) => node.0,
    }
}

fn header_of(a: &Addressed, contents: usize) -> [u8; HEADER]
    requires { contents < 2 ^ 16 }
    ensures { result ≡ control_header (control_kind a.now.control) (receiver_number a.now.to) contents }
{
    let to = number_of(a.to).to_be_bytes();
    let len = (contents as u16).to_be_bytes();
    [
        1,
        code_of(kind_of(&a.control)),
        to[0],
        to[1],
        len[0],
        len[1],
    ]
}

// A name and a time.
fn timed(name: u16, time: Ts) -> [u8; 8]
    ensures { result ≡ two_bytes name ++ six_bytes time.0 }
{
    let name = name.to_be_bytes();
    let time = six_bytes(time.0);
    [
        name[0], name[1], time[0], time[1], time[2], time[3], time[4], time[5],
    ]
}

// A name and a count.
fn counted(name: u16, count: u16) -> [u8; 4]
    ensures { result ≡ two_bytes name ++ two_bytes count }
{
    let name = name.to_be_bytes();
    let count = count.to_be_bytes();
    [name[0], name[1], count[0], count[1]]
}

fn put_announced(list: &[Announced], out: &mut [u8])
    requires { 6 + 8 * length list.now ≤ length out.old }
    ensures { out.new ≡ take 6 out.old ++ flat_map announced_bytes list.now ++ drop (6 + 8 * length list.now) out.old }
{
    'entries: for (i, entry) in list.iter().enumerate() {
        put(HEADER + 8 * i, &timed(entry.host.0, entry.time), out);
    }
}

fn put_links(links: &[LinkId], out: &mut [u8])
    requires { 6 + 2 * length links.now ≤ length out.old }
    ensures { out.new ≡ take 6 out.old ++ flat_map link_bytes links.now ++ drop (6 + 2 * length links.now) out.old }
{
    'links: for (i, link) in links.iter().enumerate() {
        put(HEADER + 2 * i, &link.0.to_be_bytes(), out);
    }
}

fn put_contents(control: &Control, out: &mut [u8])
    requires { 6 + length (contents_bytes control.now) ≤ length out.old }
    ensures { out.new ≡ take 6 out.old ++ contents_bytes control.now ++ drop (6 + length (contents_bytes control.now)) out.old }
{
    match control {
        Control::Down { link, value } => put(HEADER, &timed(link.0, *value), out),
        Control::Freeze { link } => put(HEADER, &link.0.to_be_bytes(), out),
        Control::Notice { list } => put_announced(list.as_slice(), out),
        Control::Done { host, count } => put(HEADER, &counted(host.0, *count), out),
        Control::DropLinks { links } => put_links(links.as_slice(), out),
        Control::Gone { node, count } => put(HEADER, &counted(node.0, *count), out),
    }
}

fn contents_len(control: &Control) -> usize
    requires { HasContents control.now }
    ensures len { result ≡ length (contents_bytes control.now) }
    ensures short { result < 2 ^ 16 }
{
    match control {
        Control::Down { .. } => 8,
        Control::Freeze { .. } => 2,
        Control::Notice { list } => 8 * list.len(),
        Control::Done { .. } | Control::Gone { .. } => 4,
        Control::DropLinks { links } => 2 * links.len(),
    }
}

/// How many bytes the message takes.
pub fn control_len(a: &Addressed) -> usize
    requires { IsSendableControl a.now }
    ensures { result ≡ length (control_bytes a.now) }
{
    HEADER + contents_len(&a.control)
}

/// Writes the message to the front of `out` and answers how many bytes that takes. Takes no memory.
pub fn encode_control(a: &Addressed, out: &mut [u8]) -> usize
    requires message { IsSendableControl a.now }
    requires room { length (control_bytes a.now) ≤ length out.old }
    ensures len { result ≡ length (control_bytes a.now) }
    ensures bytes { out.new ≡ control_bytes a.now ++ drop result out.old }
{
    let contents = contents_len(&a.control);
    put(0, &header_of(a, contents), out);
    put_contents(&a.control, out);
    HEADER + contents
}
