// What an event says of its alarm or condition.

// By the number that a record has. The bits of an event word are in this order, the last three once more for each condition.
#[derive(Clone, Copy)]
pub enum EventKind {
    Disabled = 1,
    Enabled,
    Suppressed,
    Unsuppressed,
    CountReset,
    Acknowledged,
    Returned,
    Activated,
}
