//! Laws of the definitions: what they give byte by byte and line by line, said of the whole.

ghost use Rattle.cts_words.specs.Spelling.{LinesEndAtFeeds, LastLineEndsTheText, WordsAreSpelled, OpenQuotesAreLeft, JoinedLinesAreStatements};
ghost use Rattle.cts_words.specs.Spelling.{JoinWordEndsTheLine};
ghost use Rattle.cts_words.specs.FaultPlaces.{FirstOpenQuoteIsTold, ClosedQuotesAreNotTold, JoinToNothingIsTold};
ghost use Rattle.cts_words.specs.Refusals.{FirstOneIsRefused};
ghost use Rattle.cts_words.specs.Blocks.{BlocksAreOfTheHeads, BlocksHaveTheirLines};

/// The lines of a text, each without its line feed.
pub fn lines_are_cut()
    ensures feeds { LinesEndAtFeeds }
    ensures last { LastLineEndsTheText }
{}

/// The words of a line are white space, quotes and words in their order. A line has none exactly
/// where a quoted word in it does not end.
pub fn words_are_spelled()
    ensures words { WordsAreSpelled }
    ensures open { OpenQuotesAreLeft }
{}

/// The statements of lines that join.
pub fn lines_are_joined()
    ensures statements { JoinedLinesAreStatements }
    ensures join_word { JoinWordEndsTheLine }
{}

/// Each fault is a condition on the lines of the whole text. The first open quote is that of the first line on which a
/// quoted word does not end, and there is none exactly where every quoted word ends; a join dangles exactly where the last
/// word of the last line is the unquoted word `&`, and then that line is named.
pub fn faults_are_of_their_lines()
    ensures left_open { FirstOpenQuoteIsTold }
    ensures closed { ClosedQuotesAreNotTold }
    ensures dangling { JoinToNothingIsTold }
{}

/// Statements are refused at the first one that is refused after those before it, and at their end where none is.
pub fn first_one_is_refused<C>()
    ensures { FirstOneIsRefused C }
{}

/// Lines that are cut at their heads give one block for each head, with the lines up to the next head.
pub fn lines_are_cut_at_heads<L, H>()
    ensures heads { BlocksAreOfTheHeads L H }
    ensures lines { BlocksHaveTheirLines L H }
{}
