ghost use Rattle.std.specs.Prelude.{◌≡◌, ◌^◌, ◌<◌, Bool, List, Some};
ghost use Rattle.json.specs.Json.{document};
ghost use Rattle.json.specs.Print.{print};
ghost use Rattle.json.specs.Tree.{json_tokens};
ghost use Rattle.pocsag_pages.specs.declared.page.Page.{Page};
ghost use Rattle.pocsag_receiver.specs.CapturedForms.{captured_object};
ghost use Rattle.pocsag_receiver.specs.Forms.{page_object};
ghost use Rattle.pocsag_receiver.specs.declared.captured.PageOrigin.{PageOrigin};

/// What a reader of JSON finds in the line of a page is the page's object, with its address, function, kind and message, and
/// of a capture with its state, the number, the polarity and the place of its transmission.
pub fn json_lines_are_read_back()
    ensures pages { (texts : List Bool) (p : Page) → p.address < 2 ^ 32 → p.function < 4 →
        document (print (json_tokens (page_object texts p))) ≡ Some (page_object texts p) }
    ensures captured { (texts : List Bool) (m : PageOrigin) (p : Page) → p.address < 2 ^ 32 → p.function < 4 →
        m.transmission < 2 ^ 64 → m.bit < 2 ^ 64 →
        document (print (json_tokens (captured_object texts m p))) ≡ Some (captured_object texts m p) }
{}
