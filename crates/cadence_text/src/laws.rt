//! Laws of the grammar of lines, each as the contract of a function that does nothing. Proofs in other crates cite
//! them.
//!
//! A metric is clear if its name and its container id have no colon, comma, bar or newline, and each of its tags is
//! clear: its key has none of them, and its text has none, except that colons may follow a key. A metric is free of
//! separators if no text of it has any.
ghost use Rattle.cadence_text.specs.Cleaned.{CleanedTextsAreClear};
ghost use Rattle.cadence_text.specs.Laws.{ClearTextsPass, FreeIsClear, LineReadsOneWay, NoLineIsEmpty, PacketReadsOneWay};

/// States that two different clear metrics have different lines. Does nothing when it is called.
pub fn line_reads_one_way()
    ensures { LineReadsOneWay }
{}

/// States that a packet is the packet of at most one list of clear metrics. A packet is the metrics' lines, each with
/// its newline, or a single line without one. Does nothing when it is called.
pub fn packet_reads_one_way()
    ensures { PacketReadsOneWay }
{}

/// States that each metric that is free of separators is clear. Does nothing when it is called.
pub fn free_is_clear()
    ensures { FreeIsClear }
{}

/// States that no line is empty. Does nothing when it is called.
#[tactic(auto, using(crate::proofs::grammar::LineText::line_is_not_empty))]
pub fn no_line_is_empty()
    ensures { NoLineIsEmpty }
{}

/// States that the tests of texts and tags are true if and only if the text has no separator or the tag is clear. Does
/// nothing when it is called.
pub fn clear_texts_pass()
    ensures { ClearTextsPass }
{}

/// States that cleaned texts and tags have no separator where it would end them, and that texts and tags without such a
/// separator stay as they are when they are cleaned. Does nothing when it is called.
pub fn cleaned_texts_are_clear()
    ensures { CleanedTextsAreClear }
{}
