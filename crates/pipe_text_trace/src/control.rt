// A control message after another word of the line.
ghost use Rattle.std.specs.Prelude.{◌≡◌, ◌++◌, [], ◌∷◌, map, OnOk};
ghost use Rattle.pipe_text_trace.specs.Control.{addressed_words, announced_word, control_words, link_word, receiver_word};
ghost use Rattle.pipe_text_trace.specs.Line.{next_words};

use crate::word::{Appended, print_name, print_number, print_word};
use itoa::Buffer;
use pipe_base::{Addressed, Announced, Control, LinkId, To};
use pipe_topo::NodeNames;

fn print_announced(out: &mut Vec<u8>, names: &NodeNames, announced: Announced) -> Appended
    ensures { OnOk result (out.new.items ≡ out.old.items ++ next_words (announced_word names.now announced ∷ [])) }
{
    print_name(out, names, announced.host.0)?;
    out.push(b':')?;
    out.extend_from_slice(Buffer::new().format(announced.time.0).as_bytes())?;
    Ok(())
}

fn print_all_announced(out: &mut Vec<u8>, names: &NodeNames, list: &[Announced]) -> Appended
    ensures { OnOk result (out.new.items ≡ out.old.items ++ next_words (map (announced_word names.now) list.now)) }
{
    'list: for entry in list {
        print_announced(out, names, *entry)?;
    }
    Ok(())
}

fn print_links(out: &mut Vec<u8>, links: &[LinkId]) -> Appended
    ensures { OnOk result (out.new.items ≡ out.old.items ++ next_words (map link_word links.now)) }
{
    'links: for link in links {
        print_number(out, link.0)?;
    }
    Ok(())
}

fn print_control(out: &mut Vec<u8>, names: &NodeNames, control: &Control) -> Appended
    ensures { OnOk result (out.new.items ≡ out.old.items ++ next_words (control_words names.now control.now)) }
{
    match control {
        Control::Down { link, value } => {
            print_word(out, b"down")?;
            print_number(out, link.0)?;
            print_number(out, value.0)
        }
        Control::Freeze { link } => {
            print_word(out, b"freeze")?;
            print_number(out, link.0)
        }
        Control::Notice { list } => {
            print_word(out, b"notice")?;
            print_number(out, list.len())?;
            print_all_announced(out, names, list.as_slice())
        }
        Control::Done { host, count } => {
            print_word(out, b"done")?;
            print_name(out, names, host.0)?;
            print_number(out, *count)
        }
        Control::DropLinks { links } => {
            print_word(out, b"drop")?;
            print_number(out, links.len())?;
            print_links(out, links.as_slice())
        }
        Control::Gone { node, count } => {
            print_word(out, b"gone")?;
            print_name(out, names, node.0)?;
            print_number(out, *count)
        }
    }
}

fn print_receiver(out: &mut Vec<u8>, names: &NodeNames, to: To) -> Appended
    ensures { OnOk result (out.new.items ≡ out.old.items ++ next_words (receiver_word names.now to ∷ [])) }
{
    match to {
        To::Controller => print_word(out, b"controller"),
        To::Node(node) => print_name(out, names, node.0),
    }
}

/// Appends the words of a control message with its receiver.
pub fn print_addressed(out: &mut Vec<u8>, names: &NodeNames, addressed: &Addressed) -> Appended
    ensures { OnOk result (out.new.items ≡ out.old.items ++ next_words (addressed_words names.now addressed.now)) }
{
    print_word(out, b"to")?;
    print_receiver(out, names, addressed.to)?;
    print_control(out, names, &addressed.control)
}
