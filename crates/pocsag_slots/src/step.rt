/// One arc of a tour: an idle in the slot that the tour has reached, or a run of a class.
#[derive(Clone, Copy, PartialEq, Eq, Debug)]
pub enum Step {
    Idle,
    Run { class: u8, early: bool },
}
