//! What a printed text is read as.
ghost use Rattle.std.specs.Prelude.{ℕ, List};
ghost use Rattle.map_history.specs.Requests.{AreInOrder};
ghost use Rattle.map_history.specs.declared.op.Request.{Request};
ghost use Rattle.trace_reader.specs.Answer.{AreTracesOf};
ghost use Rattle.trace_reader.specs.Formats.{format_for};
ghost use Rattle.trace_reader.specs.Printed.{HaveSmallValues, printed};

/// A trace text that is printed for requests is in the grammar, its requests are these, and its format is the least one
/// that has them.
pub fn printed_text_is_read()
    ensures { (requests : List Request) (traces : ℕ) → AreInOrder requests traces → HaveSmallValues requests
        → AreTracesOf (record { format = format_for requests; count = traces; requests = requests })
        (printed requests traces) }
{}
