use crate::rows::Rows;

/// How a transmission is shown.
#[derive(Clone, Copy)]
pub enum View {
    /// As text, with a letter for each codeword of these rows.
    Grid(Rows),
    /// As a listing of where each page stands.
    Places,
    /// As a picture of these rows.
    Drawing(Rows),
}

impl View {
    ghost use Rattle.std.specs.Prelude.{◌≡◌};
    ghost use Rattle.pocsag_show.specs.Views.{rows_wanted};

    /// The rows that are asked for, if some are.
    pub fn rows(self) -> Option<Rows>
        ensures { result ≡ rows_wanted self }
    {
        match self {
            View::Grid(rows) | View::Drawing(rows) => Some(rows),
            View::Places => None,
        }
    }
}
