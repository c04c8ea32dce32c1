// One mark for each receiver of a scattering.
ghost use Rattle.std.specs.Prelude.{◌≡◌, ◌==◌, ◌&&◌, ◌≤◌, length, not, take, zip};
ghost use Rattle.std.specs.List.{list_any};
ghost use Rattle.pipe_base.specs.Failed.{is_announced};
ghost use Rattle.pipe_base.specs.Limits.{most_receivers};
ghost use Rattle.pipe_relsend.specs.Pending.{is_among, is_host, marked};

use pipe_base::{Dest, HostId, Noted, RECEIVER_LIMIT};

/// A mark for each receiver that there may be. Those past the receivers are not looked at.
pub type Marks = [bool; RECEIVER_LIMIT];

/// The marks with that of the host, where it is a receiver.
pub fn with_mark(dests: &[Dest], marks: Marks, host: HostId) -> Marks
    requires { length dests.now ≤ most_receivers }
    ensures { take (length dests.now) result ≡ marked (is_host host.0) dests.now (take (length dests.now) marks) }
{
    let mut marks = marks;
    for at in 0..dests.len() {
        let (dst, _) = &dests[at];
        if dst.0 == host.0 {
            marks[at] = true;
        }
    }
    marks
}

/// The marks with those of the receivers that are noted as failed.
pub fn with_failed(dests: &[Dest], marks: Marks, noted: &Noted) -> Marks
    requires { length dests.now ≤ most_receivers }
    ensures { take (length dests.now) result ≡ marked (is_among noted.now) dests.now (take (length dests.now) marks) }
{
    let mut marks = marks;
    for at in 0..dests.len() {
        let (dst, _) = &dests[at];
        if noted.has(*dst) {
            marks[at] = true;
        }
    }
    marks
}

/// Whether some receiver is not marked.
pub fn is_open(marks: Marks, receivers: usize) -> bool
    requires { receivers ≤ most_receivers }
    ensures { result ≡ list_any not (take receivers marks) }
{
    marks[..receivers].iter().any(|marked| !*marked)
}

/// Whether the host is a receiver that is marked.
pub fn is_marked(dests: &[Dest], marks: Marks, host: HostId) -> bool
    requires { length dests.now ≤ most_receivers }
    ensures { result ≡ list_any (λ q. (q.0.0.0 == host.0) && q.1) (zip dests.now (take (length dests.now) marks)) }
{
    let marks = &marks[..dests.len()];
    let mut receivers = dests.iter().zip(marks);
    receivers.any(|((dst, _), marked)| dst.0 == host.0 && *marked)
}

/// Whether the host is a receiver that is not marked.
pub fn is_waited_for(dests: &[Dest], marks: Marks, host: HostId) -> bool
    requires { length dests.now ≤ most_receivers }
    ensures { result ≡ list_any (λ q. (q.0.0.0 == host.0) && not q.1) (zip dests.now (take (length dests.now) marks)) }
{
    let marks = &marks[..dests.len()];
    let mut receivers = dests.iter().zip(marks);
    receivers.any(|((dst, _), marked)| dst.0 == host.0 && !*marked)
}

/// Whether a receiver is noted as failed that is not marked.
pub fn has_lost(dests: &[Dest], marks: Marks, noted: &Noted) -> bool
    requires { length dests.now ≤ most_receivers }
    ensures { result ≡ list_any (λ q. is_announced q.0.0.0 noted.now && not q.1) (zip dests.now (take (length dests.now) marks)) }
{
    let marks = &marks[..dests.len()];
    let mut receivers = dests.iter().zip(marks);
    receivers.any(|((dst, _), marked)| noted.has(*dst) && !*marked)
}
