ghost use Rattle.std.specs.Prelude.{◌≡◌, ◌++◌, OnOk};
ghost use Rattle.pocsag_show.specs.Style.{style};

use crate::pieces::put;
use std::alloc::AllocError;

/// How many hues the pages have in turn.
pub(crate) const HUES: usize = 12;

// The style sheet, for light and for dark.
const STYLE_SHEET: &[u8] = b"<style type='text/css'>\
    .pocsag text{fill:#1b1d21;font:11px sans-serif}\
    .pocsag .t{font-size:15px}\
    .pocsag .m,.pocsag .l{text-anchor:middle}\
    .pocsag .e{text-anchor:end}\
    .pocsag .l{fill:#fff;font-weight:bold}\
    .pocsag .b{fill:#fff}\
    .pocsag .s{fill:#777b82}\
    .pocsag .f{fill:none;stroke:#fff;stroke-width:2}\
    .pocsag .h{stroke:#8a8f98;stroke-width:18;stroke-dasharray:1.4 4.2}\
    .pocsag .p0 rect{fill:#fed6d4}.pocsag .p0 rect.k{fill:#7a2329}\
    .pocsag .p1 rect{fill:#0d9a82}.pocsag .p1 rect.k{fill:#004c3e}\
    .pocsag .p2 rect{fill:#fed2ff}.pocsag .p2 rect.k{fill:#632c68}\
    .pocsag .p3 rect{fill:#819047}.pocsag .p3 rect.k{fill:#384801}\
    .pocsag .p4 rect{fill:#cbe2ff}.pocsag .p4 rect.k{fill:#03466e}\
    .pocsag .p5 rect{fill:#bd7851}.pocsag .p5 rect.k{fill:#6d310b}\
    .pocsag .p6 rect{fill:#8ceff7}.pocsag .p6 rect.k{fill:#044a4e}\
    .pocsag .p7 rect{fill:#c66d90}.pocsag .p7 rect.k{fill:#781f49}\
    .pocsag .p8 rect{fill:#baecbe}.pocsag .p8 rect.k{fill:#004d1b}\
    .pocsag .p9 rect{fill:#8382c8}.pocsag .p9 rect.k{fill:#353c7d}\
    .pocsag .p10 rect{fill:#f9dca7}.pocsag .p10 rect.k{fill:#543f01}\
    .pocsag .p11 rect{fill:#0195b9}.pocsag .p11 rect.k{fill:#03485b}\
    @media screen and (prefers-color-scheme:dark){\
    .pocsag text{fill:#fff}\
    .pocsag .l{fill:#16181c}\
    .pocsag .b{fill:#16181c}\
    .pocsag .s{fill:#8a8f98}\
    .pocsag .h{stroke:#6b717b}\
    .pocsag .f{stroke:#16181c}\
    .pocsag .p0 rect{fill:#5c1f32}.pocsag .p0 rect.k{fill:#ffcdd7}\
    .pocsag .p1 rect{fill:#3c855c}.pocsag .p1 rect.k{fill:#aee7c3}\
    .pocsag .p2 rect{fill:#3a2d59}.pocsag .p2 rect.k{fill:#e3d3fe}\
    .pocsag .p3 rect{fill:#857738}.pocsag .p3 rect.k{fill:#e9daa5}\
    .pocsag .p4 rect{fill:#02394e}.pocsag .p4 rect.k{fill:#afe1fe}\
    .pocsag .p5 rect{fill:#ae6255}.pocsag .p5 rect.k{fill:#fecfc7}\
    .pocsag .p6 rect{fill:#013c37}.pocsag .p6 rect.k{fill:#96e9de}\
    .pocsag .p7 rect{fill:#a16291}.pocsag .p7 rect.k{fill:#ffcbf0}\
    .pocsag .p8 rect{fill:#253b0d}.pocsag .p8 rect.k{fill:#cce2ae}\
    .pocsag .p9 rect{fill:#4e78b4}.pocsag .p9 rect.k{fill:#c9dafe}\
    .pocsag .p10 rect{fill:#4f2d0a}.pocsag .p10 rect.k{fill:#ffd1ae}\
    .pocsag .p11 rect{fill:#0a8392}.pocsag .p11 rect.k{fill:#8ee8f7}\
    }</style>\n";

/// Writes the style sheet.
pub(crate) fn put_style(text: &mut Vec<u8>) -> Result<(), AllocError>
    ensures { OnOk result (text.new.items ≡ text.old.items ++ style) }
{
    put(text, STYLE_SHEET)
}
