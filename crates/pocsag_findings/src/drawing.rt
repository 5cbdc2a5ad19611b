//! A certificate as a drawing: of the root and of each node right below it the sixteen slots as columns.
ghost use Rattle.std.specs.Prelude.{ℕ, ◌++◌, IfOk, string_bytes};
ghost use Rattle.pocsag_findings.specs.Beginnings.{BeginsWith, drawing_head, verdict_words};

use crate::columns::{most_of, push_columns};
use crate::finding::Finding;
use crate::lines::{Margins, push_lines};
use crate::node_number::Numbering;
use crate::outline::{Conclusion, first_words, refused_node_words, write_node_line};
use crate::refuted::Explanation;
use pocsag_words::OutOfMemory;
use std::alloc::{AllocError, Global};

// How many characters stand in a line at the most, where its words are no longer.
const LINE: usize = 84;

const MARGINS: Margins = Margins {
    first: 0,
    others: 0,
    width: LINE,
};

// How far it is from line to line, and from the top of the columns of a node to what stands below them.
const LINE_HEIGHT: u64 = 15;

const COLUMNS_HEIGHT: u64 = 156;

// What the signs of the drawing say.
const KEY: &str = "\
A bar is what must stand in its slot at the least, and the short line across it the room there, both in codewords. \
Dark bars with a wedge over them are the slots that an overload names; several slots together may need more \
than their bars add up to. Upright lines are the boundaries that a cut names, on its smaller side; \
boundary 5 is the left side of slot 5.";

// The rules of the drawing, all under one class, for light and for dark.
const STYLE: &str = "\
<style type='text/css'>\
.pocsag-why text{fill:#1b1d21;font:11px sans-serif}.pocsag-why .m{text-anchor:middle;font-size:9px}.pocsag-why .e{text-anchor:end}\
.pocsag-why .b{fill:#fff}.pocsag-why .c{fill:#a8c3e6}.pocsag-why .n,.pocsag-why .w{fill:#7a2329}\
.pocsag-why .r{stroke:#1b1d21;stroke-width:2}.pocsag-why .x{stroke:#777b82}\
.pocsag-why .s{stroke:#7a2329;stroke-width:2;stroke-dasharray:4 3}\
@media screen and (prefers-color-scheme:dark){.pocsag-why text{fill:#fff}.pocsag-why .b{fill:#16181c}\
.pocsag-why .c{fill:#34516f}.pocsag-why .n,.pocsag-why .w{fill:#ffb4a8}.pocsag-why .r{stroke:#fff}\
.pocsag-why .x{stroke:#8a8f98}.pocsag-why .s{stroke:#ffb4a8}}\
</style>\n";

// What is drawn so far, and how tall it is; the lines are those of the words that were added last.
#[derive(Drop)]
struct Sheet {
    text: String,
    lines: String,
    height: u64,
}

impl Sheet {
    // Adds words in as many lines as they need.
    fn put_words(&mut self, words: &str) -> Result<(), AllocError> {
        self.lines.clear();
        push_lines(&mut self.lines, MARGINS, words)?;
        for line in self.lines.as_str().split_terminator('\n') {
            let base = self.height.saturating_add(13);
            write!(self.text, "<text x='12' y='{base}'>{line}</text>\n")?;
            self.height = self.height.saturating_add(LINE_HEIGHT);
        }
        Ok(())
    }

    // Adds the nodes of which columns are found, one below the other, each with its line and its columns on one scale.
    fn put_nodes(
        &mut self,
        alloc: Global,
        explanation: &Explanation<'_>,
    ) -> Result<(), OutOfMemory> {
        let found = explanation.drawn()?;
        let most = most_of(found.as_slice());
        let mut numbering = Numbering {
            path: Vec::new(alloc),
        };
        let mut line = String::new(alloc);
        for finding in &found {
            numbering.step(finding.depth)?;
            if finding.columns.len() > 0 {
                write_node_line(&mut line, explanation.refuted, &numbering, finding)?;
                self.text.push_str("<g class='d'>\n")?;
                self.put_words(line.as_str())?;
                let top = self.height;
                write!(self.text, "<g transform='translate(0 {top})'>\n")?;
                push_columns(&mut self.text, most, finding)?;
                self.height = self.height.saturating_add(COLUMNS_HEIGHT);
                self.text.push_str("</g></g>\n")?;
            }
        }
        Ok(())
    }
}

/// The explanation as SVG 1.1: the verdict, if the checker does not accept the certificate the first node that does not hold
/// too, and the nodes of which columns are found, one below the other, on one scale.
pub(crate) fn drawing(alloc: Global, explanation: &Explanation<'_>) -> Result<String, OutOfMemory>
    ensures { IfOk result (λ text. (height : ℕ) × BeginsWith (drawing_head height
        ++ verdict_words explanation.now.is_shown explanation.now.refuted.end explanation.now.batches)
        (string_bytes text)) }
{
    let mut heading = first_words(alloc, explanation)?;
    if !explanation.is_shown {
        let refused = refused_node_words(alloc, explanation)?;
        heading.push_str(": ")?;
        heading.push_str(refused.as_str())?;
    }
    let heading = heading.as_str();
    let mut sheet = Sheet {
        text: String::new(alloc),
        lines: String::new(alloc),
        height: 8,
    };
    sheet.put_words(heading)?;
    sheet.put_nodes(alloc, explanation)?;
    if explanation.is_shown {
        let closing = Conclusion(explanation.refuted);
        let closing = format!(in alloc; "{closing}")?;
        sheet.put_words(closing.as_str())?;
    }
    sheet.put_words(KEY)?;
    page(alloc, heading, &sheet)
}

// The whole page, of what was drawn.
fn page(alloc: Global, heading: &str, sheet: &Sheet) -> Result<String, OutOfMemory>
    ensures { IfOk result (λ text. (height : ℕ) × BeginsWith (drawing_head height ++ heading.now) (string_bytes text)) }
{
    let tall = sheet.height.saturating_add(8);
    let mut text = format!(in alloc;
        "\
<svg xmlns='http://www.w3.org/2000/svg' version='1.1' class='pocsag-why' role='img' width='540' height='{tall}' \
viewBox='0 0 540 {tall}'>\n<title>{heading}"
    )?;
    let body = sheet.text.as_str();
    let rest = format!(in alloc;
        "\
</title>\n<desc>{KEY}</desc>\n{STYLE}<rect class='b' width='540' height='{tall}'/>\n{body}</svg>\n"
    )?;
    text.push_str(rest.as_str())?;
    Ok(text)
}
