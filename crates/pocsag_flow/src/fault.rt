use thiserror::Error;

/// Why there is no choice within the limits and the caps: each choice within the limits loads the slots
/// of the set above the sum of their caps. Bit `i` of the set stands for slot `i`.
#[derive(Clone, Copy, PartialEq, Eq, Debug, Error)]
pub enum ChooseFault {
    #[error("the slots overflow")]
    Overload(u16),
}
