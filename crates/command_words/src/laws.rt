//! What holds of the words.
ghost use Rattle.command_words.specs.Forms.{AreTaken, AreNotTaken};

/// Each form of the words is taken.
pub fn every_form_is_taken()
    ensures { AreTaken }
{}

/// Others are not, of which these are examples.
pub fn other_words()
    ensures { AreNotTaken }
{}
