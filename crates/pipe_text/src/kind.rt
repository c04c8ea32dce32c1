// What is wrong with a line.

use std::fmt;

/// The fault of a line. It is shown as one word, the fault's name in lower case.
#[derive(Clone, Copy, Debug, PartialEq, Eq)]
pub enum LineKind {
    /// The line has no form that is known.
    Verb,
    /// It has more or fewer words than its form.
    Count,
    /// A name is none of a node, or none of a host where a host is wanted.
    Node,
    Link,
    Number,
    Service,
    /// There are too many receivers.
    Receivers,
    Body,
    /// A receiver was named before.
    Twice,
    /// Its turn is before that of the line before it.
    Order,
}

impl fmt::Display for LineKind {
    ghost use Rattle.std.specs.Prelude.{Some};
    ghost use Rattle.pipe_text.specs.Kind.{kind_word};

    ghost output = { λ kind. Some (kind_word kind) };

    fn fmt<W: fmt::Write>(&self, f: &mut fmt::Formatter<W>) -> fmt::Result {
        f.write_str(match self {
            LineKind::Verb => "verb",
            LineKind::Count => "count",
            LineKind::Node => "node",
            LineKind::Link => "link",
            LineKind::Number => "number",
            LineKind::Service => "service",
            LineKind::Receivers => "receivers",
            LineKind::Body => "body",
            LineKind::Twice => "twice",
            LineKind::Order => "order",
        })
    }
}
