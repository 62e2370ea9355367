//! Theorems about object text: which lines it reads, what it loads, and that what is printed is read back.
ghost use Rattle.yo_object.specs.Grammar.{ReadsTheForm, SkipsTheRest};
ghost use Rattle.yo_object.specs.LoadedText.{AcceptsGoodLines, HasItsSize, IsZeroWithoutLine, LastLineWins, RefusesFirstFault};
ghost use Rattle.yo_object.specs.ReadBack.{EmitsAtAddresses, FitsItsSize, HasItsBytes, IsReadBack, IsZeroElsewhere};

/// The definition of object text and the grammar of a line agree: exactly the well-formed lines are read, with
/// their digits, and exactly the lines that don't begin with `0x` after blanks are skipped.
pub fn law_of_object_lines()
    ensures form { ReadsTheForm }
    ensures skipped { SkipsTheRest }
{}

/// A text is accepted exactly if each of its lines is skipped or stores its bytes inside the memory. The byte at an
/// address is then the one from the last line that stores one there, and 0 if no line does. A text that is refused is
/// refused for the first line with a fault, and for the first reason in the order Syntax, AddressTooWide, OddDigits,
/// OutsideMemory.
pub fn law_of_loads()
    ensures accepted { AcceptsGoodLines }
    ensures refused { RefusesFirstFault }
    ensures size { HasItsSize }
    ensures last_line { LastLineWins }
    ensures zeros { IsZeroWithoutLine }
{}

/// The printed text of an accepted source is read back. At each size of an image that holds the bytes of its listing,
/// `load` accepts the text that `print` returns, and the image has these bytes at their addresses and 0 elsewhere. The
/// size for which the source was assembled is one of these sizes.
pub fn law_of_printing()
    ensures same_image { IsReadBack }
    ensures own_size { FitsItsSize }
    ensures addressed { EmitsAtAddresses }
    ensures bytes { HasItsBytes }
    ensures zeros { IsZeroElsewhere }
{}
