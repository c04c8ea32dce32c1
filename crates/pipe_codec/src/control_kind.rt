// The kinds of control messages, with their codes and lengths.
ghost use Rattle.std.specs.Prelude.{◌≡◌, ◌==◌, find};
ghost use Rattle.pipe_codec.specs.Control.{control_code, control_kind, control_kinds, length_fits};

use pipe_base::Control;

/// The hosts of one notice.
const MOST_ANNOUNCED: usize = 64;

/// The links that one message drops.
const MOST_DROPPED: usize = 1088;

#[derive(Clone, Copy)]
pub enum ControlKind {
    Down,
    Freeze,
    Notice,
    Done,
    DropLinks,
    Gone,
}

pub fn kind_of(control: &Control) -> ControlKind
    ensures { result ≡ control_kind control.now }
{
    match control {
        Control::Down { .. } => ControlKind::Down,
        Control::Freeze { .. } => ControlKind::Freeze,
        Control::Notice { .. } => ControlKind::Notice,
        Control::Done { .. } => ControlKind::Done,
        Control::DropLinks { .. } => ControlKind::DropLinks,
        Control::Gone { .. } => ControlKind::Gone,
    }
}

pub fn code_of(kind: ControlKind) -> u8
    ensures { result ≡ control_code kind }
{
    match kind {
        ControlKind::Down => 16,
        ControlKind::Freeze => 17,
        ControlKind::Notice => 18,
        ControlKind::Done => 19,
        ControlKind::DropLinks => 20,
        ControlKind::Gone => 21,
    }
}

pub fn kind_at(code: u8) -> Option<ControlKind>
    ensures { result ≡ find (λ kind. control_code kind == code) control_kinds }
{
    match code {
        16 => Some(ControlKind::Down),
        17 => Some(ControlKind::Freeze),
        18 => Some(ControlKind::Notice),
        19 => Some(ControlKind::Done),
        20 => Some(ControlKind::DropLinks),
        21 => Some(ControlKind::Gone),
        _ => None,
    }
}

pub fn length_fits(kind: ControlKind, len: usize) -> bool
    ensures { result ≡ length_fits kind len }
{
    match kind {
        ControlKind::Down => len == 8,
        ControlKind::Freeze => len == 2,
        ControlKind::Notice => len % 8 == 0 && 8 <= len && len <= 8 * MOST_ANNOUNCED,
        ControlKind::Done | ControlKind::Gone => len == 4,
        ControlKind::DropLinks => len % 2 == 0 && 2 <= len && len <= 2 * MOST_DROPPED,
    }
}
