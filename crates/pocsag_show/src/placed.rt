use pocsag_pages::Page;

/// A page of a transmission with its place.
#[derive(Drop)]
pub(crate) struct Placed {
    /// The index of its address codeword.
    pub(crate) start: usize,
    /// How many pages of the transmission have a smaller address.
    pub(crate) number: usize,
    pub(crate) page: Page,
}
