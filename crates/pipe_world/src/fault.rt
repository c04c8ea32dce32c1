// Why an event does not happen.

/// Why an event did not happen. The world is as before.
#[derive(Clone, Copy, Debug, PartialEq, Eq)]
pub enum StepFault {
    /// With those of this event, more than 1,000,000 packets and control messages would have been put: so many.
    Full { items: u32 },
    NoMemory,
}
