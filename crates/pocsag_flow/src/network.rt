use pocsag_slots::{Classes, Limits};

// What a search for one way goes by: the load of each slot is that of the choice before the way.
#[derive(Drop)]
pub(crate) struct Network<'a> {
    pub(crate) classes: &'a Classes,
    pub(crate) limits: &'a Limits,
    pub(crate) loads: [u32; 16],
}

// How far a search has come: the choice, the slots that it has reached, and the one with room where its way ended.
#[derive(Drop)]
pub(crate) struct Progress {
    pub(crate) early: [u32; 136],
    pub(crate) reached: u16,
    pub(crate) end: u8,
}
