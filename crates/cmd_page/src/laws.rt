//! What is true for the definitions alone. The functions here do nothing: their contracts are the laws.
ghost use Rattle.cmd_page.specs.Escape.{TextReads};

/// States that what is written for a text reads as that text, with its hidden characters shown, and has nothing else
/// that a page takes for a mark.
#[tactic(auto, using(crate::proofs::Written::reads_text))]
pub fn text_reads()
    ensures { TextReads }
{}
