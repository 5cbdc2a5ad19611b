ghost use Rattle.std.specs.Prelude.{◌≡◌, ℕ, ◌+◌, ◌^◌, ◌<◌, ◌≤◌, List, [], ◌∷◌, ◌++◌, IfErr, IfOk};
ghost use Rattle.pocsag_pages.specs.Quotes.{HasQuoteFault, IsWellQuoted};
ghost use Rattle.pocsag_pages.specs.QuotePlaces.{HasSeen};

use crate::fault::QuoteFault;
use crate::quote_state::QuoteState;

// Where a walk over the quotes of a page file stands.
#[derive(Clone, Copy)]
pub(crate) struct QuotePlace {
    pub(crate) state: QuoteState,
    // Whether no byte of the record was seen.
    pub(crate) is_blank: bool,
    pub(crate) number: usize,
    pub(crate) line: usize,
    // The line in which the field at hand starts.
    pub(crate) opened: usize,
}

impl QuotePlace {
    // The place behind one byte more, or the fault there.
    pub(crate) fn after(self, byte: u8) -> Result<QuotePlace, QuoteFault>
        requires few_records { self.number + 1 < 2 ^ 64 }
        requires few_lines { self.line + 1 < 2 ^ 64 }
        ensures place { IfOk result (λ next. (seen : List ℕ) → HasSeen self seen → HasSeen next (seen ++ byte ∷ [])) }
        ensures records { IfOk result (λ next. next.number ≤ self.number + 1) }
        ensures lines { IfOk result (λ next. next.line ≤ self.line + 1) }
        ensures fault { IfErr result (λ f. (seen rest : List ℕ) → HasSeen self seen →
            HasQuoteFault (seen ++ byte ∷ rest) f) }
        ensures lost { IfErr result (λ f. (seen rest : List ℕ) → HasSeen self seen →
            IsWellQuoted (seen ++ byte ∷ rest) → ⊥) }
    {
        let line = self.line + usize::from(byte == b'\n');
        let QuotePlace {
            number,
            line: here,
            ..
        } = self;
        match self.state.after(byte) {
            QuoteState::Broken | QuoteState::Ended => {
                let ends_line = (byte == b'\r') | (byte == b'\n');
                if ends_line {
                    return Ok(QuotePlace {
                        state: QuoteState::Start,
                        is_blank: true,
                        number: self.number + usize::from(!self.is_blank),
                        line,
                        opened: line,
                    });
                }
                if byte == b'"' {
                    return Err(QuoteFault::Inside { number, line: here });
                }
                Err(QuoteFault::Followed { number, line: here })
            }
            state => Ok(QuotePlace {
                state,
                is_blank: false,
                number,
                line,
                opened: match state {
                    QuoteState::Start => line,
                    _ => self.opened,
                },
            }),
        }
    }
}
