//! A text has one reading.
ghost use Rattle.a2l_text.specs.Laws.{OneWordIsNext, NoWordAtTheEnd, NoWordAtAFault};
ghost use Rattle.a2l_text.specs.Laws.{NoEndAtAFault, OneFault, OneListOfWords};
ghost use Rattle.a2l_text.specs.Reading.{ReadsElements, ReadsAll};

/// What is next in a text is determined by it: one word and one rest, or the end, or one fault at
/// one place.
pub fn one_outcome()
    ensures word { OneWordIsNext }
    ensures end { NoWordAtTheEnd }
    ensures fault { NoWordAtAFault }
    ensures fault_or_end { NoEndAtAFault }
    ensures one_fault { OneFault }
{}

/// A text has one list of words.
pub fn one_list_of_words()
    ensures { OneListOfWords }
{}

/// Reading words gives the parts of a tree of elements whose words they are; and of the words of
/// each such tree its parts are read.
pub fn parts_are_those_of_elements()
    ensures elements { ReadsElements }
    ensures all { ReadsAll }
{}
