/// How a certificate is explained.
#[derive(Clone, Copy)]
pub enum Format {
    /// As an indented list of its nodes down to this depth; the root alone has depth 1.
    Lines(u32),
    /// The same facts as JSON.
    Json(u32),
    /// As a drawing of its root and of the nodes right below it.
    Drawing,
}
