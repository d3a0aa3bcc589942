//! What holds of words and lines.
ghost use Rattle.uq_words.specs.Blocks.{BlockIsFirst, BlockPartIsAlone, LastBlockIsAlone, UnfinishedIsAlone};
ghost use Rattle.uq_words.specs.Lines.{LastIsAlone, LineIsFirst, PartIsAlone};
ghost use Rattle.uq_words.specs.Words.{WordsAreSpelled};

use uq_json::front_is_string;

/// A line has the words of which it is made, with blanks between them, and no others.
pub fn words_are_spelled()
    ensures { WordsAreSpelled }
{
    front_is_string();
}

/// What is found at the front of an input of which so many bytes count are the lines of these bytes, one by one.
pub fn lines_begin()
    ensures line { LineIsFirst }
    ensures last { LastIsAlone }
    ensures part { PartIsAlone }
{}

/// What is found at the front of an input, of which so many bytes count, where a block begins there: the lines of these
/// bytes are those of the block, up to one that is a dot, and those behind it.
pub fn blocks_begin()
    ensures closed { BlockIsFirst }
    ensures last { LastBlockIsAlone }
    ensures unfinished { UnfinishedIsAlone }
    ensures part { BlockPartIsAlone }
{}
