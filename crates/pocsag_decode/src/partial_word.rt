/// The bytes of a word that is not whole.
#[derive(Clone, Copy)]
pub(crate) enum PartialWord {
    None,
    One(u8),
    Two(u8, u8),
    Three(u8, u8, u8),
}
